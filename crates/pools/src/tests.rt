use crate::held::Pool;
use crate::kinds::{ActivityNumber, WorkItem};
use crate::refusal::PoolRefusal;
use refusals::Refusal;
use std::test::Fail;

#[test]
fn zero_places(rt: HostRuntime) {
    let mut places: [ActivityNumber; 0] = [];
    let mut pool = Pool::new(&mut places);
    assert_eq!(rt; pool.add(ActivityNumber(3)), Err(PoolRefusal::Full(0)));
    assert_eq!(rt; pool.take_least(), Err(PoolRefusal::Empty));
}

#[test]
fn one_place_full_empty_and_refilled(rt: HostRuntime) -> Result<(), Fail> {
    let mut places = [ActivityNumber(0)];
    let mut pool = Pool::new(&mut places);
    pool.add(ActivityNumber(5))?;
    assert_eq!(rt; pool.add(ActivityNumber(2)), Err(PoolRefusal::Full(1)));
    assert_eq!(rt; pool.take_least(), Ok(ActivityNumber(5)));
    assert_eq!(rt; pool.take_least(), Err(PoolRefusal::Empty));
    pool.add(ActivityNumber(2))?;
    assert_eq!(rt; pool.take_least(), Ok(ActivityNumber(2)));
    Ok(())
}

#[test]
fn thirty_two_places(rt: HostRuntime) -> Result<(), Fail> {
    let mut places = [ActivityNumber(0); 32];
    let mut pool = Pool::new(&mut places);
    for n in (0..32).rev() {
        pool.add(ActivityNumber(n))?;
    }
    assert_eq!(rt; pool.add(ActivityNumber(0)), Err(PoolRefusal::Full(32)));
    for n in 0..32 {
        assert_eq!(rt; pool.take_least(), Ok(ActivityNumber(n)));
    }
    assert_eq!(rt; pool.take_least(), Err(PoolRefusal::Empty));
    Ok(())
}

fn item(priority: u8, activity: u8) -> WorkItem {
    WorkItem { priority, activity }
}

#[test]
fn equal_priorities_by_activity(rt: HostRuntime) -> Result<(), Fail> {
    let mut places = [item(0, 0); 4];
    let mut pool = Pool::new(&mut places);
    for added in [item(1, 9), item(1, 4), item(0, 30), item(1, 4)] {
        pool.add(added)?;
    }
    for least in [item(0, 30), item(1, 4), item(1, 4), item(1, 9)] {
        assert_eq!(rt; pool.take_least(), Ok(least));
    }
    Ok(())
}

#[test]
fn the_lender_has_its_slice_back(rt: HostRuntime) -> Result<(), Fail> {
    let mut places = [ActivityNumber(0); 3];
    {
        let mut pool = Pool::new(&mut places);
        pool.add(ActivityNumber(8))?;
        pool.add(ActivityNumber(6))?;
    }
    assert_eq!(rt;
        places,
        [ActivityNumber(8), ActivityNumber(6), ActivityNumber(0)]
    );
    places[0] = ActivityNumber(1);
    let mut again = Pool::new(&mut places);
    assert_eq!(rt; again.take_least(), Err(PoolRefusal::Empty));
    Ok(())
}

#[test]
fn refusals_have_a_number_and_a_place(rt: HostRuntime) {
    let full = PoolRefusal::Full(32);
    assert_eq!(rt; (full.cause(), full.place()), (37, 32));
    assert_eq!(rt;
        (PoolRefusal::Empty.cause(), PoolRefusal::Empty.place()),
        (38, 0)
    );
}
