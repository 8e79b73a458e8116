//! A contract's transactions with what each does and spends.

ghost use Rattle.std.specs.Prelude.{◌≡◌};
ghost use Rattle.bm_compile.specs.declared.detailed.Detailed.{Detailed};

use bm_syntax::Path;
use spec_compiler::{Prepared, Unsigned};
use spec_data::{Bytes, Seq};

/// A transaction by what it spends and makes, and the same ready to be signed.
pub struct Detailed {
    pub pending: Unsigned,
    pub prepared: Prepared,
}

impl Drop for Detailed {
    fn drop(self) {
        let Detailed {
            pending: _,
            prepared: _,
        } = self;
    }
}

/// The initial transaction of a contract, the transaction of each path and the witness script (BIP 141) of each position, both in
/// the order of the text.
pub struct Details {
    pub init: Detailed,
    pub paths: Seq<(Path, Detailed)>,
    pub scripts: Seq<(Path, Bytes)>,
}

impl Drop for Details {
    fn drop(self) {
        let Details {
            init: _,
            paths: _,
            scripts: _,
        } = self;
    }
}

/// What is kept of each transaction. A pending effect has the script of what it spends, with the keys of all branches of a position: where nobody
/// asks for pending effects they aren't kept.
pub(crate) trait Kept {
    // what is kept of a transaction
    ghost kept: { Detailed → Self };

    /// What is kept of this one.
    fn keep(whole: Detailed) -> Self
        ensures { result ≡ kept whole };
}

impl Kept for Detailed {
    ghost kept = { λ whole. whole };

    fn keep(whole: Detailed) -> Detailed {
        whole
    }
}

impl Kept for Prepared {
    ghost kept = { λ whole. whole.prepared };

    fn keep(whole: Detailed) -> Prepared {
        whole.into_prepared()
    }
}

impl Detailed {
    /// The transaction that is ready to be signed, alone.
    pub fn into_prepared(self) -> Prepared
        ensures { result ≡ self.prepared }
    {
        let Detailed {
            pending: _,
            prepared,
        } = self;
        prepared
    }
}

impl Details {
    /// The initial transaction, the transactions of the paths, and the scripts.
    pub fn into_parts(self) -> (Detailed, Seq<(Path, Detailed)>, Seq<(Path, Bytes)>)
        ensures init { result.0 ≡ self.init }
        ensures paths { result.1 ≡ self.paths }
        ensures scripts { result.2 ≡ self.scripts }
    {
        let Details {
            init,
            paths,
            scripts,
        } = self;
        (init, paths, scripts)
    }
}
