//! What the program's words ask for.
use crate::words::{Call, Task};
use std::alloc::{AllocError, Global};
use std::test::Fail;

// The task of these words.
fn task_of(alloc: Global, words: &[&str]) -> Result<Option<Task>, AllocError> {
    let mut all = Vec::new(alloc);
    for word in words {
        all.push(word.to_string(alloc)?)?;
    }
    Ok(Task::read(&all))
}

#[test]
fn three_words_are_a_task(rt: HostRuntime) -> Result<(), Fail> {
    let calls = [
        ("need", Call::Need),
        ("prepare", Call::Prepare),
        ("commit", Call::Commit),
    ];
    for (word, call) in calls {
        let want = Task {
            call,
            leaves: 1_048_576,
            times: 0,
        };
        assert_eq!(rt; task_of(rt.alloc(), &[word, "1048576", "0"])?, Some(want));
    }
    let faulty: [&[&str]; 8] = [
        &[],
        &["need", "1"],
        &["need", "1", "1", "1"],
        &["Need", "1", "1"],
        &["need", "0", "1"],
        &["need", "1048577", "1"],
        &["need", "-1", "1"],
        &["need", "1", "4294967296"],
    ];
    for words in faulty {
        assert_eq!(rt; task_of(rt.alloc(), words)?, None, "{words:?}");
    }
    Ok(())
}
