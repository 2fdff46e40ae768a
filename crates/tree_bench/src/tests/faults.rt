//! Calls of which each read of the device fails in turn: they answer that failure, leave all as it was, and answer rightly the next time.
ghost use Rattle.std.specs.Prelude.{◌≡◌, false};

use super::asked::{Answer, Excerpt, Name, Question, Step, ask, make};
use super::caches::{cache_over, freeze, write_all};
use super::rows::{range, range_also};
use crate::changes::{Refusal, empty_node};
use crate::words::Call;
use qx_blocks::{Blocks, Stop};
use qx_cache::Cache;
use qx_fields::Order;
use qx_outside::Dev;
use qx_ptree::Change;
use std::alloc::Global;
use std::test::Fail;

// What a node of so many blocks is asked, what it answers, and how many reads of the device that takes at least: one of each block that is looked at.
#[derive(Clone, Copy)]
struct Case {
    blocks: u32,
    question: Question,
    answer: Answer,
    reads: u64,
}

// A case.
fn asked(blocks: u32, question: Question, answer: Answer, reads: u64) -> Case {
    Case {
        blocks,
        question,
        answer,
        reads,
    }
}

// Two answers to one question, and whether the node and the number of free blocks were as before in between.
#[derive(Clone, Copy, Debug, PartialEq, Eq)]
struct Seen {
    first: Result<Answer, Refusal>,
    same: bool,
    again: Result<Answer, Refusal>,
}

// Makes a node, puts its blocks on the device, and asks it twice.
fn asked_twice<H: Dev>(
    alloc: Global,
    cache: &mut Cache<H>,
    order: Order,
    steps: &[Step],
    case: &Case,
) -> Result<Seen, Fail>
    requires { cache.old.space.is_frozen ≡ false }
{
    let mut node = empty_node(cache, order);
    make(alloc, &mut node, cache, order, steps)?;
    freeze(cache, &node, order);
    if write_all(cache, &node, order)? != case.blocks {
        return Err(Fail::new("the node has another number of blocks"));
    }
    let old = node;
    let free = cache.free();
    let first = ask(alloc, &mut node, cache, order, &case.question);
    let same = node == old && cache.free() == free;
    let again = ask(alloc, &mut node, cache, order, &case.question);
    Ok(Seen { first, same, again })
}

// Whether each read that fails is met as it should be, until none is left to fail, and whether they are enough.
fn reads_are_met(alloc: Global, order: Order, steps: &[Step], case: &Case) -> Result<bool, Fail> {
    let met = Seen {
        first: Err(Refusal::Stopped(Stop::Device)),
        same: true,
        again: Ok(case.answer),
    };
    for reads in 0..100 {
        // The writes come before the first read.
        let mut cache = cache_over(alloc, &[u64::from(case.blocks) + reads])?;
        let seen = asked_twice(alloc, &mut cache, order, steps, case)?;
        if seen.first == Ok(case.answer) {
            return Ok(reads >= case.reads);
        }
        if seen != met {
            return Ok(false);
        }
    }
    Ok(false)
}

#[test]
fn a_change_gives_its_blocks_back_where_a_read_fails(rt: HostRuntime) -> Result<(), Fail> {
    let three = [
        Step::Make(range(8192, 0, 16)),
        Step::Make(range(8704, 16, 1)),
        Step::Make(range(9216, 17, 1)),
    ];
    let two = range_also(9216, 0, 1, 17);
    let fewer = range(8704, 0, 0);
    // Leaves 0 and 2048, the blocks 0 and 16 above them, and one above these.
    let ends = range_also(1_049_088, 0, 1, 2048);
    let far = [Step::Make(ends)];
    let first = range(512, 0, 0);
    let cases: [(&str, &[Step], u32, Change, u64, [u64; 2]); 4] = [
        ("two leaves", &three, 19, two, 3, [1, 3]),
        ("a leaf goes", &three, 19, fewer, 1, [1, 1]),
        ("two levels", &far, 5, ends, 5, [3, 5]),
        ("two levels go", &far, 5, first, 0, [2, 3]),
    ];
    for (name, steps, blocks, change, need, [of_need, of_all]) in cases {
        let calls = [
            (Call::Need, of_need),
            (Call::Prepare, of_all),
            (Call::Commit, of_all),
        ];
        for (call, reads) in calls {
            let question = Question::Need(call, change);
            let case = asked(blocks, question, Answer::Need(need), reads);
            for order in [Order::Little, Order::Big] {
                assert!(rt;
                    reads_are_met(rt.alloc(), order, steps, &case)?,
                    "{name}, {call:?}, {order:?}"
                );
            }
        }
    }
    Ok(())
}

#[test]
fn bytes_come_once_the_device_is_read(rt: HostRuntime) -> Result<(), Fail> {
    let near = [Step::Write(510, b"abcd"), Step::Write(1536, b"yz")];
    let far = [near[0], near[1], Step::Write(10_000, b"x")];
    let farther = [near[0], near[1], Step::Write(2_000_000, b"x")];
    let question = Question::Bytes(510, 1028);
    // All others are 0: the rest of leaf 1 and the hole at leaf 2.
    let answer = Answer::Bytes(Some(Excerpt {
        first: *b"abcd",
        last: *b"yz",
        sum: 97 + 98 + 99 + 100 + 121 + 122,
    }));
    let cases: [(&str, &[Step], Case); 3] = [
        ("no level", &near, asked(3, question, answer, 3)),
        ("a level", &far, asked(5, question, answer, 4)),
        ("two levels", &farther, asked(7, question, answer, 5)),
    ];
    for (name, steps, case) in cases {
        for order in [Order::Little, Order::Big] {
            assert!(rt;
                reads_are_met(rt.alloc(), order, steps, &case)?,
                "{name}, {order:?}"
            );
        }
    }
    Ok(())
}

#[test]
fn long_names_come_once_the_device_is_read(rt: HostRuntime) -> Result<(), Fail> {
    let there = Answer::Name(Some(Name {
        first: b'n',
        length: 3,
    }));
    let none = Answer::Name(None);
    for (order, name) in [(Order::Little, b"\x03\0nam"), (Order::Big, b"\0\x03nam")] {
        let near = [Step::Write(2 * 512, name)];
        let far = [Step::Write(17 * 512, name)];
        let farther = [Step::Write(3000 * 512, name)];
        let cases: [(&str, &[Step], Case); 4] = [
            ("no level", &near, asked(1, Question::Name(2), there, 1)),
            ("a level", &far, asked(2, Question::Name(17), there, 2)),
            (
                "two levels",
                &farther,
                asked(3, Question::Name(3000), there, 3),
            ),
            ("a hole", &far, asked(2, Question::Name(3), none, 1)),
        ];
        for (name, steps, case) in cases {
            assert!(rt;
                reads_are_met(rt.alloc(), order, steps, &case)?,
                "{name}, {order:?}"
            );
        }
    }
    Ok(())
}

#[test]
fn the_least_absent_number_comes_once_the_device_is_read(rt: HostRuntime) -> Result<(), Fail> {
    let full = [Step::Make(range(9216, 0, 18))];
    let far = [Step::Make(range_also(9216, 0, 2, 17))];
    let farther = [Step::Make(range_also(1_049_088, 0, 2, 2048))];
    let question = Question::Absent;
    let cases: [(&str, &[Step], Case); 3] = [
        (
            "past the size",
            &full,
            asked(19, question, Answer::Absent(18), 1),
        ),
        ("a level", &far, asked(4, question, Answer::Absent(2), 1)),
        (
            "two levels",
            &farther,
            asked(6, question, Answer::Absent(2), 2),
        ),
    ];
    for (name, steps, case) in cases {
        for order in [Order::Little, Order::Big] {
            assert!(rt;
                reads_are_met(rt.alloc(), order, steps, &case)?,
                "{name}, {order:?}"
            );
        }
    }
    Ok(())
}
