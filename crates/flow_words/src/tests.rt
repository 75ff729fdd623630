//! Words, and what they are read as.
use crate::{Command, RunOptions, WordsError, read_words};
use std::alloc::{AllocError, Global};
use std::test::Fail;

// Words, each behind a bar, and the command in words.
const CASES: [(&str, &str); 150] = [
    // Each option in both forms, at its default and at both ends of its range.
    ("|run", "run 4 1048576 4096"),
    ("|run|--threads|1", "run 1 1048576 4096"),
    ("|run|--threads=1", "run 1 1048576 4096"),
    ("|run|--threads|16", "run 16 1048576 4096"),
    ("|run|--threads=16", "run 16 1048576 4096"),
    ("|run|--max-commits|1", "run 4 1 4096"),
    ("|run|--max-commits=1", "run 4 1 4096"),
    ("|run|--max-commits|4194304", "run 4 4194304 4096"),
    ("|run|--max-commits=4194304", "run 4 4194304 4096"),
    ("|run|--checkpoint|1", "run 4 1048576 1"),
    ("|run|--checkpoint=1", "run 4 1048576 1"),
    ("|run|--checkpoint|1000000", "run 4 1048576 1000000"),
    ("|run|--checkpoint=1000000", "run 4 1048576 1000000"),
    (
        "|run|--checkpoint=5|--threads|2|--max-commits=3",
        "run 2 3 5",
    ),
    ("|run|--max-commits|3|--threads|2", "run 2 3 4096"),
    // Ten digits, and zeros in front.
    ("|run|--threads=04", "run 4 1048576 4096"),
    ("|run|--threads|0000000016", "run 16 1048576 4096"),
    ("|trial|0000010000", "trial 10000 4"),
    // Options before and behind the positional.
    ("|trial|1", "trial 1 4"),
    ("|trial|10000", "trial 10000 4"),
    ("|trial|20|--threads|2", "trial 20 2"),
    ("|trial|--threads|2|20", "trial 20 2"),
    ("|trial|20|--threads=16", "trial 20 16"),
    ("|trial|--threads=1|20", "trial 20 1"),
    // A UUID in each spelling.
    (
        "|lineage|6ba7b810-9dad-11d1-80b4-00c04fd430c8",
        "lineage 6ba7b810-9dad-11d1-80b4-00c04fd430c8",
    ),
    (
        "|lineage|6ba7b8109dad11d180b400c04fd430c8",
        "lineage 6ba7b810-9dad-11d1-80b4-00c04fd430c8",
    ),
    (
        "|lineage|{6ba7b810-9dad-11d1-80b4-00c04fd430c8}",
        "lineage 6ba7b810-9dad-11d1-80b4-00c04fd430c8",
    ),
    (
        "|lineage|urn:uuid:6ba7b810-9dad-11d1-80b4-00c04fd430c8",
        "lineage 6ba7b810-9dad-11d1-80b4-00c04fd430c8",
    ),
    (
        "|content|6BA7B810-9DAD-11D1-80B4-00C04FD430C8",
        "content 6ba7b810-9dad-11d1-80b4-00c04fd430c8",
    ),
    (
        "|content|URN:UUID:6BA7B810-9DAD-11D1-80B4-00C04FD430C8",
        "content 6ba7b810-9dad-11d1-80b4-00c04fd430c8",
    ),
    // What takes nothing.
    ("|queues", "queues"),
    ("|events", "events"),
    ("|check", "check"),
    // No command.
    ("", "usage"),
    ("|", "usage"),
    ("|Run", "usage"),
    ("|RUN", "usage"),
    ("|runs", "usage"),
    ("| run", "usage"),
    ("|help", "usage"),
    ("|-h", "usage"),
    ("|--help", "usage"),
    ("|--version", "usage"),
    ("|--threads=4|run", "usage"),
    ("|--|run", "usage"),
    ("|-", "usage"),
    // A lone pair of hyphens.
    ("|run|--", "usage"),
    ("|run|--|--threads=4", "usage"),
    ("|run|--threads|--", "usage"),
    ("|trial|--|20", "usage"),
    ("|trial|20|--", "usage"),
    ("|lineage|--|6ba7b810-9dad-11d1-80b4-00c04fd430c8", "usage"),
    ("|queues|--", "usage"),
    // Unknown options.
    ("|run|--verbose", "usage"),
    ("|run|--verbose=1", "usage"),
    ("|run|--verbose|1", "usage"),
    ("|run|--thread=4", "usage"),
    ("|run|--threads-=4", "usage"),
    ("|run|--Threads=4", "usage"),
    ("|run|-t|4", "usage"),
    ("|run|-threads=4", "usage"),
    ("|run|---threads=4", "usage"),
    ("|run|--=4", "usage"),
    ("|run|-h", "usage"),
    ("|run|--help", "usage"),
    ("|run|--version", "usage"),
    ("|run|-V", "usage"),
    ("|trial|20|--checkpoint=5", "usage"),
    ("|trial|20|--max-commits|5", "usage"),
    (
        "|lineage|6ba7b810-9dad-11d1-80b4-00c04fd430c8|--threads=4",
        "usage",
    ),
    (
        "|content|--threads|4|6ba7b810-9dad-11d1-80b4-00c04fd430c8",
        "usage",
    ),
    ("|queues|--threads|4", "usage"),
    ("|events|--help", "usage"),
    ("|check|--checkpoint=5", "usage"),
    // Repeated options.
    ("|run|--threads=4|--threads=4", "usage"),
    ("|run|--threads|4|--threads|5", "usage"),
    ("|run|--checkpoint=5|--threads=4|--checkpoint|5", "usage"),
    ("|trial|--threads=4|20|--threads=4", "usage"),
    // Values that are missing, empty or begin with a hyphen.
    ("|run|--threads", "usage"),
    ("|trial|20|--threads", "usage"),
    ("|run|--threads=", "usage"),
    ("|run|--threads|", "usage"),
    ("|run|--threads|--checkpoint|5", "usage"),
    ("|run|--threads|--checkpoint=5", "usage"),
    ("|run|--threads=-4", "usage"),
    ("|run|--threads|-4", "usage"),
    ("|run|--threads|-", "usage"),
    ("|run|--checkpoint=--", "usage"),
    ("|trial|-5", "usage"),
    ("|trial|-", "usage"),
    ("|lineage|-6ba7b810-9dad-11d1-80b4-00c04fd430c8", "usage"),
    // Numbers out of range.
    ("|run|--threads=0", "usage"),
    ("|run|--threads|0", "usage"),
    ("|run|--threads=17", "usage"),
    ("|run|--threads|17", "usage"),
    ("|run|--threads=260", "usage"),
    ("|run|--max-commits=0", "usage"),
    ("|run|--max-commits|4194305", "usage"),
    ("|run|--checkpoint=0", "usage"),
    ("|run|--checkpoint|1000001", "usage"),
    ("|trial|0", "usage"),
    ("|trial|10001", "usage"),
    ("|trial|20|--threads=17", "usage"),
    ("|run|--max-commits=9999999999", "usage"),
    // No numbers.
    ("|run|--threads=00000000004", "usage"),
    ("|trial|00000000020", "usage"),
    ("|run|--threads=18446744073709551620", "usage"),
    ("|run|--threads=+4", "usage"),
    ("|run|--threads|+4", "usage"),
    ("|run|--threads= 4", "usage"),
    ("|run|--threads|4 ", "usage"),
    ("|run|--threads=4.0", "usage"),
    ("|run|--threads=0x4", "usage"),
    ("|run|--threads=1e1", "usage"),
    ("|run|--threads=four", "usage"),
    ("|run|--threads==4", "usage"),
    ("|run|--threads=4=4", "usage"),
    ("|run|--threads=４", "usage"),
    ("|trial|٤", "usage"),
    ("|trial|1_000", "usage"),
    ("|trial|2,0", "usage"),
    // A positional that is missing, empty or one too many.
    ("|run|4", "usage"),
    ("|run|", "usage"),
    ("|queues|x", "usage"),
    ("|events|6ba7b810-9dad-11d1-80b4-00c04fd430c8", "usage"),
    ("|check|", "usage"),
    ("|trial", "usage"),
    ("|trial|", "usage"),
    ("|trial|5|6", "usage"),
    ("|trial|--threads|4", "usage"),
    ("|lineage", "usage"),
    ("|content", "usage"),
    ("|lineage|", "usage"),
    (
        "|lineage|6ba7b810-9dad-11d1-80b4-00c04fd430c8|6ba7b810-9dad-11d1-80b4-00c04fd430c8",
        "usage",
    ),
    ("|content|6ba7b810-9dad-11d1-80b4-00c04fd430c8|", "usage"),
    // No UUIDs.
    ("|lineage|6ba7b8109dad11d180b400c04fd430c", "usage"),
    ("|lineage|6ba7b8109dad11d180b400c04fd430c80", "usage"),
    ("|lineage|6ba7b810-9dad-11d1-80b4-00c04fd430cg", "usage"),
    ("|lineage|6ba7b810-9dad-11d1-80b4-00c04fd430c8 ", "usage"),
    ("|content| 6ba7b810-9dad-11d1-80b4-00c04fd430c8", "usage"),
    ("|lineage|{6ba7b8109dad11d180b400c04fd430c8}", "usage"),
    ("|lineage|{6ba7b810-9dad-11d1-80b4-00c04fd430c8", "usage"),
    ("|lineage|6ba7b810-9dad-11d1-80b4-00c04fd430c8}", "usage"),
    ("|lineage|(6ba7b810-9dad-11d1-80b4-00c04fd430c8)", "usage"),
    (
        "|content|urn:uuid:6ba7b8109dad11d180b400c04fd430c8",
        "usage",
    ),
    (
        "|content|uuid:6ba7b810-9dad-11d1-80b4-00c04fd430c8",
        "usage",
    ),
    ("|lineage|6ba7b8109-dad-11d1-80b4-00c04fd430c8", "usage"),
    ("|lineage|6ba7b810_9dad_11d1_80b4_00c04fd430c8", "usage"),
    ("|content|a.txt", "usage"),
    ("|content|1", "usage"),
];

// The command in words.
fn told(alloc: Global, command: Command) -> Result<String, AllocError> {
    match command {
        Command::Run(options) => {
            let RunOptions {
                threads,
                max_commits,
                checkpoint,
            } = options;
            format!(in alloc; "run {threads} {max_commits} {checkpoint}")
        }
        Command::Trial { count, threads } => format!(in alloc; "trial {count} {threads}"),
        Command::Lineage(file) => format!(in alloc; "lineage {file}"),
        Command::Content(file) => format!(in alloc; "content {file}"),
        Command::Queues => format!(in alloc; "queues"),
        Command::Events => format!(in alloc; "events"),
        Command::Check => format!(in alloc; "check"),
    }
}

// The command in words, or why there is none.
fn answer(alloc: Global, words: &[String]) -> Result<String, AllocError> {
    match read_words(alloc, words) {
        Ok(command) => told(alloc, command),
        Err(WordsError::Usage) => format!(in alloc; "usage"),
        Err(WordsError::Memory) => format!(in alloc; "out of memory"),
    }
}

#[test]
fn words_are_read_as_the_table_says(rt: HostRuntime) -> Result<(), Fail> {
    let alloc = rt.alloc();
    for (line, command) in CASES.iter() {
        let mut words = Vec::new(alloc);
        for word in line.split('|').skip(1) {
            words.push(String::from_str(alloc, word)?)?;
        }
        let answer = answer(alloc, &words)?;
        assert_eq!(rt; answer.as_str(), *command, "{line}");
    }
    Ok(())
}
