//! Offers of wagons at interchange, and the answers to them.
use crate::stores::given::{number_of, railway};
use interchange::{Offer, Offers};
use memory_limit::MemoryLimit;
use std::alloc::Global;
use std::test::Fail;
use taf_codes::{Memory, Place, Railway};
use taf_messages::{MessageNumber, OfferedWagons, Wagons};
use wagon_number::WagonNumber;

// The wagons that are written with blanks between them.
fn wagons(alloc: Global, numbers: &str) -> Result<Vec<WagonNumber>, Memory> {
    let mut wagons = Vec::new(alloc);
    for number in numbers.split_ascii_whitespace() {
        wagons.push(WagonNumber::read(number).ok().ok_or(Memory)?)?;
    }
    Ok(wagons)
}

// An offer of two wagons by R101 to R102.
fn offer(alloc: Global, number: u64) -> Result<Offer, Memory> {
    let by = railway("R101")?;
    let to = railway("R102")?;
    let no = number_of(number)?;
    let place = Place::read("AT00002").ok().ok_or(Memory)?;
    let wagons = wagons(alloc, "218124712173 338478961232")?;
    let wagons = OfferedWagons::new(wagons).ok_or(Memory)?;
    Ok(Offer {
        by,
        no,
        to,
        place,
        wagons,
    })
}

// A table without offers. It lies on the heap, since what owns a table itself takes the prover long.
fn no_offers(alloc: Global) -> Result<Box<Offers>, Fail> {
    Ok(Box::new(alloc, Offers::new(alloc))?)
}

// Makes an offer where its name is new.
fn open_new(alloc: Global, offers: &mut Offers, number: u64) -> Result<(), Memory> {
    let offer = offer(alloc, number)?;
    if offers.find(offer.by, offer.no).is_some() {
        return Ok(());
    }
    offers.open_offer(offer)
}

// Makes an offer where its name is new, and where there is room for it.
fn open_where_there_is_room(alloc: Global, offers: &mut Offers, number: u64) -> Result<(), Memory> {
    offers.reserve()?;
    let next = offer(alloc, number)?;
    if offers.find(next.by, next.no).is_none() {
        offers.open_reserved(next);
    }
    Ok(())
}

// Offers of which 6 is made in one step, and 7 where there is room.
fn with_two(alloc: Global) -> Result<Box<Offers>, Fail> {
    let mut offers = no_offers(alloc)?;
    open_new(alloc, &mut offers, 6)?;
    open_where_there_is_room(alloc, &mut offers, 7)?;
    Ok(offers)
}

#[test]
fn offers_are_open_once_they_are_made(rt: HostRuntime) -> Result<(), Fail> {
    let by = railway("R101")?;
    let six = number_of(6)?;
    let mut offers = no_offers(rt.alloc())?;
    assert!(rt; !offers.is_open(by, six));
    assert!(rt; offers.find(by, six).is_none());
    open_new(rt.alloc(), &mut offers, 6)?;
    assert!(rt; offers.is_open(by, six));
    assert!(rt; !offers.is_open(railway("R102")?, six));
    Ok(())
}

// Whether the offer of two wagons to R102 is still found.
fn is_kept(offers: &Offers, by: Railway, no: MessageNumber) -> Result<bool, Memory> {
    let to = railway("R102")?;
    match offers.find(by, no) {
        Some(found) => Ok(found.to == to && found.wagons.as_slice().len() == 2),
        None => Ok(false),
    }
}

#[test]
fn closed_offers_are_found(rt: HostRuntime) -> Result<(), Fail> {
    let by = railway("R101")?;
    let six = number_of(6)?;
    let mut offers = with_two(rt.alloc())?;
    if offers.is_open(by, six) {
        offers.close_offer(by, six);
    }
    assert!(rt; !offers.is_open(by, six));
    assert!(rt; offers.is_open(by, number_of(7)?));
    assert!(rt; is_kept(&offers, by, six)?);
    Ok(())
}

// Whether an answer with these wagons received and these refused names each wagon of the offer once.
fn matches(alloc: Global, received: &str, refused: &str) -> Result<bool, Memory> {
    let received = Wagons::new(wagons(alloc, received)?).ok_or(Memory)?;
    let refused = Wagons::new(wagons(alloc, refused)?).ok_or(Memory)?;
    let made = offer(alloc, 6)?;
    Ok(made.matches(&received, &refused))
}

// The wagons that are received, those that are refused, and whether they are those of the offer.
static ANSWERS: [(&str, &str, bool); 11] = [
    ("218124712173 338478961232", "", true),
    ("", "218124712173 338478961232", true),
    ("218124712173", "338478961232", true),
    ("338478961232", "218124712173", true),
    ("218124712173 338478961232", "338478961232", false),
    ("218124712173", "", false),
    ("", "", false),
    ("218124712173", "218124712173", false),
    ("218124712173 218124712173", "338478961232", false),
    ("218124712173 338478961232", "318066552148", false),
    ("218124712173", "318066552148", false),
];

#[test]
fn answers_name_each_wagon_once(rt: HostRuntime) -> Result<(), Fail> {
    for (received, refused, wanted) in &ANSWERS {
        if matches(rt.alloc(), received, refused)? != *wanted {
            return Err(Fail::new(*received));
        }
    }
    Ok(())
}

// Makes forty offers with so much memory at hand, and answers how many growths were refused. What was refused is made again
// with all memory.
fn fill(
    alloc: Global,
    offers: &mut Offers,
    memory_limit: &mut MemoryLimit,
    budget: usize,
) -> Result<u32, Memory> {
    let mut refused: u32 = 0;
    memory_limit.limit_to(budget)?;
    for number in 1..41u64 {
        if open_new(alloc, offers, number).is_err() {
            refused = refused.saturating_add(1);
            memory_limit.release();
            open_new(alloc, offers, number)?;
        }
    }
    memory_limit.release();
    Ok(refused)
}

// Whether the offers up to 40 are made and open, and 41 is not.
fn is_filled(offers: &Offers, by: Railway) -> Result<bool, Memory> {
    for number in 1..42u64 {
        let name = number_of(number)?;
        let is_made = number < 41;
        if offers.is_open(by, name) != is_made || offers.find(by, name).is_some() != is_made {
            return Ok(false);
        }
    }
    Ok(true)
}

// Whether so many bytes are enough. Fails unless all offers are made in the end.
fn is_enough(
    alloc: Global,
    memory_limit: &mut MemoryLimit,
    budget: usize,
    by: Railway,
) -> Result<bool, Fail> {
    let mut offers = no_offers(alloc)?;
    let refused = fill(alloc, &mut offers, memory_limit, budget)?;
    if is_filled(&offers, by)? {
        Ok(refused == 0)
    } else {
        Err(Fail::new(budget))
    }
}

#[test]
fn each_growth_is_refused_in_turn(rt: HostRuntime) -> Result<(), Fail> {
    let by = railway("R101")?;
    let mut memory_limit = MemoryLimit::new(rt.alloc())?;
    for step in 0..4000usize {
        if is_enough(rt.alloc(), &mut memory_limit, step * 32, by)? {
            assert!(rt; step > 20);
            return Ok(());
        }
    }
    Err(Fail::new("always refused"))
}
