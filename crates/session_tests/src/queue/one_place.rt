//! An inbox of one place.

use crate::queue::jobs::Question;
use inbox::Inbox;
use std::test::Fail;

#[test]
fn a_full_inbox_hands_a_job_back(rt: HostRuntime) -> Result<(), Fail> {
    let question = Question::new()?;
    let (inbox, mut pass) = Inbox::new(&rt, rt.alloc(), 1)?;
    assert_eq!(rt; inbox.put(&rt, &mut pass, question.job(0, 0)), Ok(()));
    assert_eq!(rt;
        inbox.put(&rt, &mut pass, question.job(0, 1)),
        Err(question.job(0, 1))
    );
    assert_eq!(rt; inbox.take(&rt, &mut pass), Some(question.job(0, 0)));
    assert_eq!(rt; inbox.take(&rt, &mut pass), None);
    assert_eq!(rt; inbox.put(&rt, &mut pass, question.job(0, 2)), Ok(()));
    let mut left = inbox.close(&rt, Vec::from_array(rt.alloc(), [pass])?);
    assert_eq!(rt; left.next(&rt), Some(question.job(0, 2)));
    assert_eq!(rt; left.next(&rt), None);
    Ok(())
}
