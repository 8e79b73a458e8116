//! The definition of Bitcoin addresses by BIP 173 and BIP 350: which text is the address of a script. It is read to
//! know what `deal_address` does.
#![tactic(auto)]
