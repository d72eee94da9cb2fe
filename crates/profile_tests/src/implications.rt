//! All implications between comparisons with the least and the greatest words, and some that are worked out.

use seccomp_doc::{Compare, Op};
use std::alloc::{AllocError, Global};
use std::process::Abort;
use std::test::Fail;
use widening::implies;

// The operators with one value.
const SIMPLE: [Op; 6] = [
    Op::NotEqual,
    Op::LessThan,
    Op::LessOrEqual,
    Op::Equal,
    Op::GreaterOrEqual,
    Op::GreaterThan,
];

fn comparison(op: Op, value: u64, value_two: u64) -> Compare {
    Compare {
        index: 0,
        op,
        value,
        value_two,
    }
}

// One of the eight least words, or of the eight greatest.
fn outer_word(i: u64) -> u64 {
    if i < 8 { i } else { i | !7 }
}

// All comparisons with these sixteen words.
fn comparisons(alloc: Global) -> Result<Vec<Compare>, AllocError> {
    let mut all = Vec::new(alloc);
    for i in 0..16 {
        for op in SIMPLE {
            all.push(comparison(op, outer_word(i), 0))?;
        }
        for j in 0..16 {
            all.push(comparison(Op::MaskedEqual, outer_word(i), outer_word(j)))?;
        }
    }
    Ok(all)
}

// Whether each word that `c` admits is admitted by `d`, both being of the sixteen words. They admit
// any other word where they admit the one from 8 to 15 that has its three lowest bits.
fn implies_by_words(c: Compare, d: Compare) -> bool {
    (0..16).all(|i| !c.admits(outer_word(i)) || d.admits(outer_word(i)))
        && (8..16).all(|word| !c.admits(word) || d.admits(word))
}

// That a comparison implies another, or doesn't, as is wanted.
fn assert_implied(rt: &impl Abort, c: Compare, d: Compare, wanted: bool) {
    let (one, other) = (c.op.word(), d.op.word());
    assert_eq!(rt;
        implies(c, d),
        wanted,
        "{one} {} {}, {other} {} {}",
        c.value,
        c.value_two,
        d.value,
        d.value_two
    );
}

// That each of these comparisons implies each of them as the words say, whatever their indexes are.
fn assert_imply_by_words(rt: &impl Abort, all: &[Compare]) {
    for c in all {
        for d in all {
            let other = Compare { index: 5, ..*d };
            assert_implied(rt, *c, other, implies_by_words(*c, *d));
        }
    }
}

#[test]
fn comparisons_with_outer_words_imply_as_the_words_tell(rt: HostRuntime) -> Result<(), Fail> {
    let all = comparisons(rt.alloc())?;
    assert_eq!(rt; all.len(), 352);
    assert_imply_by_words(&rt, all.as_slice());
    Ok(())
}

// A comparison with one value.
fn simple(op: Op, value: u64) -> Compare {
    comparison(op, value, 0)
}

// One with a mask and a datum.
fn masked(mask: u64, datum: u64) -> Compare {
    comparison(Op::MaskedEqual, mask, datum)
}

#[test]
fn comparisons_imply_as_it_is_worked_out(rt: HostRuntime) {
    for (c, d, wanted) in [
        (
            simple(Op::GreaterThan, 5),
            simple(Op::GreaterOrEqual, 7),
            false,
        ),
        (
            simple(Op::GreaterThan, 6),
            simple(Op::GreaterOrEqual, 7),
            true,
        ),
        (
            simple(Op::GreaterThan, 18446744073709551615),
            simple(Op::Equal, 3),
            true,
        ),
        (simple(Op::Equal, 12), masked(3, 0), true),
        (masked(7, 5), masked(3, 1), true),
        (masked(3, 1), masked(7, 5), false),
        (simple(Op::NotEqual, 3), masked(0, 9), true),
        (simple(Op::LessOrEqual, 4), simple(Op::NotEqual, 5), true),
        (simple(Op::NotEqual, 0), simple(Op::GreaterOrEqual, 1), true),
        (
            simple(Op::LessOrEqual, 7),
            masked(18446744073709551608, 0),
            true,
        ),
        (
            simple(Op::LessOrEqual, 8),
            masked(18446744073709551608, 0),
            false,
        ),
        (
            masked(18446744073709551608, 8),
            simple(Op::GreaterOrEqual, 8),
            true,
        ),
    ] {
        assert_implied(&rt, c, d, wanted);
    }
}
