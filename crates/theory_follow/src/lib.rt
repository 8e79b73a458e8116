//! What follows of chains that are followed: what the lines of a file come to, what may be left out, and what ledgers have along them.
#![tactic(auto)]

ghost use Rattle.theory_follow.specs.ChainLines.{ChainsCome};
ghost use Rattle.theory_follow.specs.LeftOut.{AsidesLeftOut};
ghost use Rattle.theory_follow.specs.LiveMaps.{LedgersFollow};
ghost use Rattle.theory_follow.specs.Taken.{TakenStands};

use theory_chain::{bad_exactly, own_is_accepted};
use theory_deal::{keys_are_used, none_is_circular};

/// A chain file comes to what its lines come to: it stands, its strings collide, or it is refused at its first bad line, by the first reason
/// that holds there.
pub fn chains_come()
    ensures { ChainsCome }
{
    bad_exactly();
}

/// However many transactions that have nothing to do with the deal are added wherever, or left out: the chain stands as it did, where no
/// strings collide.
pub fn asides_left_out()
    ensures { AsidesLeftOut }
{}

/// A live map that begins with the deal's deposits has behind each transaction what is live of the deal there, and ledgers that have it accept
/// the next one of the deal's.
pub fn ledgers_follow()
    ensures { LedgersFollow }
{
    own_is_accepted();
    none_is_circular();
    keys_are_used();
}

/// Where ledgers take each of the deal's transactions where it stands, for the branch that it shows, and others spend of the deal at most live
/// deposits, none is bad: the chain stands.
pub fn taken_stands()
    ensures { TakenStands }
{
    none_is_circular();
    keys_are_used();
}
