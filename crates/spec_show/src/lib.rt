//! Defines what `deal show` prints: the plan of a deal for people and for their wallets, as JSON.
#![tactic(auto)]
