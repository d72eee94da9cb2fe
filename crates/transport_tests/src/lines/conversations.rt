//! Conversations, from lines to lines.

use crate::lines::texts::{FIRST_ANSWERS, FIRST_PATH};
use crate::lines::turns::take_turn_anew;
use std::test::Fail;
use test_doubles::fake_streams::{Giving, Taking};

#[test]
fn a_stream_cut_at_any_place_has_the_same_answers(rt: HostRuntime) -> Result<(), Fail> {
    for place in 0..FIRST_PATH.len() {
        let manner = (Giving::CutAt(place), Taking::All);
        take_turn_anew(&rt, rt.alloc(), (FIRST_PATH, manner, Ok(()), FIRST_ANSWERS))?;
    }
    Ok(())
}

#[test]
fn single_bytes_have_the_same_answers_where_each_read_is_interrupted(
    rt: HostRuntime,
) -> Result<(), Fail> {
    let manner = (Giving::Interrupted, Taking::OneByOne);
    take_turn_anew(&rt, rt.alloc(), (FIRST_PATH, manner, Ok(()), FIRST_ANSWERS))
}
