//! What a played run prints. What each call prints is proved, and not that it succeeds.

ghost use Rattle.std.specs.Prelude.{true, ◌≡◌};
ghost use Rattle.bm_report.specs.Endings.{IsNumbered};

use crate::timed_commitment::{all_names, begun};
use bm_calculus::Config;
use bm_report::{Ending, report};
use bm_rows::Rows;
use spec_calculus::{Move, Owner, Step};
use spec_data::{Boxed, Bytes, Name, OutOfMemory, Seq};
use spec_run::{Event, Header, Outcome, Record};
use std::alloc::Global;
use std::test::Fail;

fn list<T: Copy + Drop>(alloc: Global, items: &[T]) -> Result<Seq<T>, OutOfMemory> {
    Ok(Seq::of(Vec::from_slice(alloc, items)?))
}

fn header(alloc: Global, party: Name) -> Result<Header, OutOfMemory> {
    Ok(Header {
        parties: list(alloc, &[party])?,
        honest: list(alloc, &[party])?,
        secrets: Seq::new(alloc),
        deposits: list(alloc, &[(party, 100)])?,
    })
}

fn give(alloc: Global, party: Name) -> Result<Event, OutOfMemory> {
    Ok(Event::Give {
        party,
        inputs: list(alloc, &[0])?,
        outputs: Boxed::new(alloc, list(alloc, &[(party, 60), (party, 30)])?)?,
    })
}

fn action(alloc: Global, party: Name) -> Result<Move, OutOfMemory> {
    let owner = Owner::Party(party);
    Ok(Move {
        inputs: list(alloc, &[0])?,
        outputs: list(alloc, &[(owner, 60), (owner, 30)])?,
    })
}

fn given(alloc: Global, party: Name) -> Result<Record, OutOfMemory> {
    Ok(Record {
        event: give(alloc, party)?,
        outcome: Outcome::Accepted {
            spent: Boxed::new(alloc, list(alloc, &[0])?)?,
            made: Boxed::new(alloc, list(alloc, &[(1, 60), (2, 30)])?)?,
            lock: 0,
        },
        tx: None,
    })
}

fn steps(alloc: Global, party: Name) -> Result<Vec<Step>, OutOfMemory> {
    let mut steps = Vec::new(alloc);
    steps.push(Step::AuthMove {
        party,
        action: Boxed::new(alloc, action(alloc, party)?)?,
    })?;
    steps.push(Step::Move {
        action: action(alloc, party)?,
    })?;
    Ok(steps)
}

fn live(alloc: Global) -> Result<Seq<(u32, u64)>, OutOfMemory> {
    list(alloc, &[(1, 60)])
}

fn offers(alloc: Global) -> Result<Seq<Event>, OutOfMemory> {
    let mut offers = Seq::new(alloc);
    offers.push(Event::FireInit { contract: 0 })?;
    Ok(offers)
}

// A run that ends in this configuration.
fn whole(live: Seq<(u32, u64)>, config: Config, offers: Seq<Event>) -> Ending {
    Ending::Whole {
        tip: 5,
        live,
        config,
        offers,
    }
}

fn opened(alloc: Global, party: Name) -> Result<Ending, OutOfMemory> {
    let live = live(alloc)?;
    let offers = offers(alloc)?;
    let config = Config::opening(alloc, &[party], &[party], &[(party, 100)], &[])?;
    Ok(whole(live, config, offers))
}

fn committed(alloc: Global) -> Result<Option<Ending>, OutOfMemory> {
    let Some(names) = all_names() else {
        return Ok(None);
    };
    let live = live(alloc)?;
    let offers = offers(alloc)?;
    let config = begun(alloc, &names)?;
    Ok(config.map(|config| whole(live, config, offers)))
}

fn guessed(party: Name) -> Ending {
    Ending::Guessed {
        event: Event::Mine { blocks: 2 },
        party,
        secret: party,
    }
}

fn collided(alloc: Global, event: Option<Event>) -> Result<Ending, OutOfMemory> {
    let first = Bytes::from_slice(alloc, &[1])?;
    let second = Bytes::from_slice(alloc, &[2])?;
    Ok(Ending::Collided {
        event,
        first,
        second,
    })
}

fn ending(alloc: Global, party: Name, row: usize) -> Result<Option<Ending>, OutOfMemory> {
    match row {
        0 => Ok(Some(opened(alloc, party)?)),
        1 => committed(alloc),
        2 => Ok(Some(guessed(party))),
        3 => Ok(Some(collided(alloc, Some(Event::Mine { blocks: 2 }))?)),
        _ => Ok(Some(collided(alloc, None)?)),
    }
}

fn is_small(ending: &Ending) -> bool
    ensures { result ≡ true → IsNumbered ending.now }
{
    match ending {
        Ending::Whole { config, .. } => config.contracts().len() <= 16,
        _ => true,
    }
}

fn printed(
    alloc: Global,
    header: &Header,
    records: &[Record],
    steps: &Rows<Step>,
    ending: &Ending,
) -> Result<Option<Vec<u8>>, OutOfMemory> {
    if !is_small(ending) || steps.len() != records.len() {
        return Ok(None);
    }
    Ok(Some(report(alloc, header, records, steps, ending)?))
}

const OPENED: &str = "start #0 A 100
event 1 give A #0 -> A 60 A 30
accepted spends #0 makes #1 60 #2 30 lock 0
step authmove A
step move #0 -> A 60 A 30
end
tip 5
live #1 60
time 0
deposit #0 A 100
offer fire init 0
";

const COMMITTED: &str = "start #0 A 100
event 1 give A #0 -> A 60 A 30
accepted spends #0 makes #1 60 #2 30 lock 0
step authmove A
step move #0 -> A 60 A 30
end
tip 5
live #1 60
time 0
contract #2 0 r 100
secret 0 A a 16 hidden
offer fire init 0
";

// The text of each row, worked by hand; halted runs have no event before the one that halts them.
const TEXTS: [&str; 5] = [
    OPENED,
    COMMITTED,
    "start #0 A 100\nevent 1 mine 2\nguessed A A\n",
    "start #0 A 100\nevent 1 mine 2\ncollided 01 02\n",
    "collided 01 02\n",
];

fn text(alloc: Global, party: Name, row: usize) -> Result<Option<Vec<u8>>, OutOfMemory> {
    let header = header(alloc, party)?;
    let given = [given(alloc, party)?];
    let records: &[Record] = if row < 2 { &given } else { &[] };
    let mut taken = Rows::new(alloc);
    if row < 2 {
        taken.push(&mut steps(alloc, party)?)?;
    }
    match ending(alloc, party, row)? {
        Some(ending) => printed(alloc, &header, records, &taken, &ending),
        None => Ok(None),
    }
}

#[test]
fn lines_are_those_written_by_hand(rt: HostRuntime) -> Result<(), Fail> {
    let alloc = rt.alloc();
    let party = Name::new(b"A").ok_or("no name")?;
    for (row, required) in TEXTS.iter().enumerate() {
        let text = text(alloc, party, row)?.ok_or("none")?;
        assert!(rt; text.as_slice() == required.as_bytes(), "{required}");
    }
    Ok(())
}
