//! Contracts as trees. Contracts of code see them as the terms of the definitions, by the functions of specs/View.

use spec_data::Name;

/// The branches of a contract in order, of which one is taken.
#[cycle(contract)]
pub struct Contract {
    pub branches: Vec<Guarded>,
}

impl Drop for Contract {
    #[cycle(letting_go)]
    fn drop(self) {
        let Contract { branches: _ } = self;
    }
}

/// A branch.
#[cycle(contract)]
pub enum Guarded {
    /// The branch, once the party has authorised it.
    Auth {
        party: Name,
        body: Box<Guarded>,
    },
    /// The branch, from a block height on.
    After {
        height: u32,
        body: Box<Guarded>,
    },
    /// Puts volatile deposits, reveals secrets, and goes on if the test is true of the secrets' lengths.
    PutReveal {
        puts: Vec<Name>,
        reveals: Vec<Name>,
        test: Pred,
        next: Box<Contract>,
    },
    /// Pays the balance to the party.
    Withdraw {
        party: Name,
    },
    /// Divides the balance among the parts.
    Split {
        parts: Vec<Part>,
    },
}

impl Drop for Guarded {
    #[cycle(letting_go)]
    fn drop(self) {
        match self {
            Guarded::Auth { party: _, body: _ }
            | Guarded::After { height: _, body: _ }
            | Guarded::PutReveal {
                puts: _,
                reveals: _,
                test: _,
                next: _,
            }
            | Guarded::Withdraw { party: _ }
            | Guarded::Split { parts: _ } => {}
        }
    }
}

/// A part of a split, with its value in satoshi.
#[cycle(contract)]
pub struct Part {
    pub value: u64,
    pub next: Contract,
}

impl Drop for Part {
    #[cycle(letting_go)]
    fn drop(self) {
        let Part { value: _, next: _ } = self;
    }
}

/// A predicate of the lengths of secrets.
pub enum Pred {
    True,
    And(Box<Pred>, Box<Pred>),
    Not(Box<Pred>),
    Equal(Expr, Expr),
    Less(Expr, Expr),
}

impl Drop for Pred {
    fn drop(self) {
        match self {
            Pred::True | Pred::And(_, _) | Pred::Not(_) | Pred::Equal(_, _) | Pred::Less(_, _) => {}
        }
    }
}

/// An expression of the lengths of secrets.
pub enum Expr {
    Const(u32),
    /// The length of the secret of this name.
    Length(Name),
    Plus(Box<Expr>, Box<Expr>),
    Minus(Box<Expr>, Box<Expr>),
}

impl Drop for Expr {
    fn drop(self) {
        match self {
            Expr::Const(_) | Expr::Length(_) | Expr::Plus(_, _) | Expr::Minus(_, _) => {}
        }
    }
}
