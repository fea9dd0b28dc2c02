use crate::bytes::{Edit, edited};
use crate::loan;
use conditions::text::Text;
use flows::flow::Flow;
use refusals::Refusal;
use std::alloc::AllocGlobal;
use std::process::Abort;
use std::test::Fail;

/// Some edits of a definition, and the cause and place of its refusal with them.
pub(crate) type Damage = (&'static [Edit], u16, usize);

pub(crate) fn flow_of(bytes: &[u8]) -> Result<Flow, Fail> {
    let mut flow = Flow::fresh();
    flow.read(bytes)?;
    Ok(flow)
}

pub(crate) fn is_text(rt: &impl Abort, found: Option<Text>, bytes: &[u8]) -> Result<(), Fail> {
    let text = found.ok_or("no text")?;
    assert_eq!(rt; text.as_bytes(), bytes);
    Ok(())
}

/// A flow has so many activities, links and connectors, and as many texts as links and activities.
pub(crate) fn has_counts(
    rt: &impl Abort,
    flow: &Flow,
    activities: usize,
    links: usize,
    connectors: usize,
) {
    assert_eq!(rt;
        (flow.activity_count(), flow.link_count()),
        (activities, links)
    );
    assert_eq!(rt;
        (flow.connector_count(), flow.text_count()),
        (connectors, links.saturating_add(activities))
    );
    assert!(rt; flow.transition(links).is_none());
    assert!(rt; flow.join(activities).is_none());
}

fn has_records_of_the_loan(rt: &impl Abort, flow: &Flow) {
    assert_eq!(rt; flow.activities(), &loan::ACTIVITIES[..]);
    assert_eq!(rt; flow.links(), &loan::LINKS[..]);
    assert_eq!(rt; flow.connectors(), &loan::CONNECTORS[..]);
    assert_eq!(rt; flow.by_rank(), &loan::BY_RANK[..]);
}

fn has_texts_of_the_loan(rt: &impl Abort, flow: &Flow) -> Result<(), Fail> {
    for (number, text) in loan::TRANSITIONS.iter().enumerate() {
        is_text(rt, flow.transition(number), text)?;
    }
    for (number, text) in loan::JOINS.iter().enumerate() {
        is_text(rt, flow.join(number), text)?;
    }
    Ok(())
}

pub(crate) fn is_the_loan(rt: &impl Abort, flow: &Flow) -> Result<(), Fail> {
    has_counts(rt, flow, 4, 4, 2);
    has_records_of_the_loan(rt, flow);
    has_texts_of_the_loan(rt, flow)
}

/// The bytes with these edits are refused so, and a flow that was the loan still is.
pub(crate) fn is_refused(
    rt: &(impl Abort + AllocGlobal),
    bytes: &[u8],
    damage: &Damage,
) -> Result<(), Fail> {
    let (edits, cause, place) = *damage;
    let damaged = edited(rt.alloc(), bytes, edits)?;
    let mut flow = flow_of(loan::BYTES)?;
    let Err(refusal) = flow.read(&damaged) else {
        return Err(Fail::new(format_args!("accepted, and not {cause} at {place}")));
    };
    assert_eq!(rt; (refusal.cause(), refusal.place()), (cause, place));
    is_the_loan(rt, &flow)
}

/// Each of these damages of the loan is refused as it says.
pub(crate) fn are_refused(rt: &(impl Abort + AllocGlobal), damages: &[Damage]) -> Result<(), Fail> {
    for damage in damages {
        is_refused(rt, loan::BYTES, damage)?;
    }
    Ok(())
}
