//! Work items in the order in which a pool gives them.

use pools::{Pool, WorkItem};
use std::io;

const SAMPLE: [WorkItem; 4] = [
    WorkItem {
        priority: 2,
        activity: 0,
    },
    WorkItem {
        priority: 1,
        activity: 3,
    },
    WorkItem {
        priority: 1,
        activity: 1,
    },
    WorkItem {
        priority: 0,
        activity: 2,
    },
];

pub fn show_sample(rt: &HostRuntime) -> io::Result<()> {
    println!(rt; "work items by rising priority, then activity number")?;
    let mut places = SAMPLE;
    let mut pool = Pool::new(&mut places);
    for item in SAMPLE {
        let _ = pool.add(item);
    }
    for _ in SAMPLE {
        if let Ok(WorkItem { priority, activity }) = pool.take_least() {
            println!(rt; "priority {priority}, activity {activity}")?;
        }
    }
    Ok(())
}
