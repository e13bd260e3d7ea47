//! Words and the tasks that they are.

use crate::{Kind, Method, OptionName, Rule, Task, read_words};
use std::alloc::{AllocError, Global};
use std::process::Abort;
use std::test::Fail;
use sx_edge::words::WordList;

/// The words between the blanks of a line; two blanks stand around an empty word.
fn words_of(alloc: Global, line: &str) -> Result<WordList, AllocError> {
    let mut words = WordList::new(alloc);
    if !line.is_empty() {
        for word in line.split(' ') {
            words.push(word)?;
        }
    }
    Ok(words)
}

fn task(alloc: Global, line: &str) -> Result<Task, AllocError> {
    read_words(alloc, &words_of(alloc, line)?)
}

/// The rule that a task stands for.
fn rule_of(task: Task) -> Option<Rule> {
    match task {
        Task::Usage(rule) => Some(rule),
        _ => None,
    }
}

/// Checks that each of the lines, between which `|` stands, breaks the rule first.
fn check_rule<R: Abort>(
    rt: &R,
    alloc: Global,
    wanted: Rule,
    lines: &str,
) -> Result<(), AllocError> {
    for line in lines.split('|') {
        assert_eq!(rt; rule_of(task(alloc, line)?), Some(wanted), "{line}");
    }
    Ok(())
}

#[test]
fn unknown_commands(rt: HostRuntime) -> Result<(), Fail> {
    let alloc = rt.alloc();
    check_rule(&rt, alloc, Rule::NoCommand, "")?;
    let lines = "frob|frob -|-|- D|--|-- build func D|--help|-h|--version|help|help query D|\
                 --seeds 1|Build func D|build= func D| | build func D";
    check_rule(&rt, alloc, Rule::UnknownCommand, lines)?;
    Ok(())
}

#[test]
fn bad_words(rt: HostRuntime) -> Result<(), Fail> {
    let alloc = rt.alloc();
    let lines = "build|build lcp|build func D E|build tree D E|build func  |build  D|\
                 build func -D|build func D help|build func D --frob 5|query|query |\
                 query D help|open -D|dump D E|trial func|trial func 3 4|trial tree 3 4|trial  3";
    check_rule(&rt, alloc, Rule::BadWords, lines)?;
    Ok(())
}

#[test]
fn options_in_bad_form(rt: HostRuntime) -> Result<(), Fail> {
    let alloc = rt.alloc();
    let twice = "build lcp D --seeds 1 --seeds 2|build lcp D --seeds=1 --seeds 1|\
                 build lcp D --seeds 1 --seeds=1|build lcp --seeds=1 D --seeds=2|\
                 build func D --signed 0 --signed 0";
    check_rule(&rt, alloc, Rule::BadWords, twice)?;
    let no_value = "build func D --seeds|build func D --seeds |build func D --seeds=|\
                    build func D --seeds --|build func D --seeds=--|build func D --seeds -1|\
                    build func D --seeds=-1|build func D --values -f|build func D --values=-f|\
                    build func D --values --seeds|build func D --values=--seeds";
    check_rule(&rt, alloc, Rule::BadWords, no_value)?;
    let no_option = "build func D --=1|build func D --= 1|build func D --seed 1|\
                     build func D --seed=1|build func D --sig 8|build func D --s 1|\
                     build func D --seedss 1|build func D --SEEDS 1|build func D -seeds 1";
    check_rule(&rt, alloc, Rule::BadWords, no_option)?;
    let elsewhere = "trial func 3 --seeds 1|trial func 3 --seeds=1|trial --seeds 1|\
                     trial --seeds=1 func 3|query D --seeds 1|query --seeds=1|\
                     query --seeds=1 D|open D --signed 8|dump --values=V D";
    check_rule(&rt, alloc, Rule::BadWords, elsewhere)?;
    Ok(())
}

#[test]
fn no_word_is_special(rt: HostRuntime) -> Result<(), Fail> {
    let alloc = rt.alloc();
    let places = [
        ("build ", ""),
        ("build ", " D"),
        ("build ", " func D"),
        ("build func ", ""),
        ("build func ", " D"),
        ("build func D ", ""),
        ("build func D ", " 3"),
        ("build func ", " --seeds 1"),
        ("build func D --seeds ", ""),
        ("build func D --seeds=", ""),
        ("build tree ", ""),
        ("query ", ""),
        ("query ", " D"),
        ("query D ", ""),
        ("open ", ""),
        ("dump ", ""),
        ("trial ", ""),
        ("trial ", " func 3"),
        ("trial func ", " 3"),
        ("trial func 3 ", ""),
    ];
    for word in ["-", "--", "--help", "-h", "--version", "-V"] {
        for (before, behind) in places {
            let line = format!(in alloc; "{before}{word}{behind}")?;
            check_rule(&rt, alloc, Rule::BadWords, line.as_str())?;
        }
    }
    Ok(())
}

#[test]
fn bad_kinds_and_numbers(rt: HostRuntime) -> Result<(), Fail> {
    let alloc = rt.alloc();
    let lines = "build tree D|build help D|build tree D --signed 0|build Func D|\
                 trial tree 3|trial tree x|trial help 3";
    check_rule(&rt, alloc, Rule::UnknownKind, lines)?;
    let lines = "trial func x|trial func 01|trial func 1000001|trial func help";
    check_rule(&rt, alloc, Rule::BadNumber, lines)?;
    Ok(())
}

#[test]
fn bad_values(rt: HostRuntime) -> Result<(), Fail> {
    let alloc = rt.alloc();
    let seeds = "build func D --seeds 1,,2|build func D --seeds 1,|\
                 build func D --seeds 18446744073709551616|\
                 build func D --seeds 1,2,3,4,5,6,7,8,9,10,11,12,13,14,15,16,17|\
                 build zfast D --method x --seeds x";
    let method = "build zfast D --log-bucket 13 --method gov4";
    let log_bucket = "build zfast D --sig-bits 193 --log-bucket 13|build func D --log-bucket 13";
    let sig_bits = "build zfast D --handle-bits 65 --sig-bits 193|build func D --sig-bits 007";
    let handle_bits = "build zfast D --signed 0 --handle-bits 65";
    let signed = "build func D --signed 0 --values V|build hollow D --signed 65 --method mwhc";
    let cases = [
        (OptionName::Seeds, seeds),
        (OptionName::Method, method),
        (OptionName::LogBucket, log_bucket),
        (OptionName::SigBits, sig_bits),
        (OptionName::HandleBits, handle_bits),
        (OptionName::Signed, signed),
    ];
    for (name, lines) in cases {
        check_rule(&rt, alloc, Rule::BadValue(name), lines)?;
    }
    Ok(())
}

#[test]
fn options_that_do_not_go(rt: HostRuntime) -> Result<(), Fail> {
    let alloc = rt.alloc();
    let method = "build hollow D --log-bucket 3 --method mwhc";
    let log_bucket = "build func D --handle-bits 5 --log-bucket 3";
    let handle_bits = "build lcp D --values V --handle-bits 5";
    let values = "build lcp D --signed 8 --values V|build lcp D --values f";
    let cases = [
        (OptionName::Method, Kind::Hollow, method),
        (OptionName::LogBucket, Kind::Func, log_bucket),
        (OptionName::HandleBits, Kind::Lcp, handle_bits),
        (OptionName::Values, Kind::Lcp, values),
    ];
    for (name, kind, lines) in cases {
        check_rule(&rt, alloc, Rule::DoesNotGo { name, kind }, lines)?;
    }
    let both = "build func D --signed 8 --values V";
    check_rule(&rt, alloc, Rule::SignedAndValues, both)?;
    Ok(())
}

#[test]
fn trials(rt: HostRuntime) -> Result<(), Fail> {
    let alloc = rt.alloc();
    let cases = [
        ("trial func 3", Kind::Func, 3),
        ("trial func 0", Kind::Func, 0),
        ("trial hollow 3", Kind::Hollow, 3),
        ("trial zfast 1000000", Kind::Zfast, 1_000_000),
    ];
    for (line, wanted, count) in cases {
        match task(alloc, line)? {
            Task::Trial { kind, keys } => {
                assert_eq!(rt; kind, wanted, "{line}");
                assert_eq!(rt; keys, count, "{line}");
            }
            _ => assert!(rt; false, "{line}"),
        }
    }
    Ok(())
}

/// So many words `w` behind a command.
fn many_words(alloc: Global, command: &str, count: usize) -> Result<WordList, AllocError> {
    let mut words = words_of(alloc, command)?;
    for _ in 0..count {
        words.push("w")?;
    }
    Ok(words)
}

/// A text and so many letters `w`.
fn long_text(alloc: Global, start: &str, count: usize) -> Result<String, AllocError> {
    let mut text = String::from_str(alloc, start)?;
    for _ in 0..count {
        text.push('w')?;
    }
    Ok(text)
}

#[test]
fn many_and_long_words(rt: HostRuntime) -> Result<(), Fail> {
    let alloc = rt.alloc();
    for command in ["build", "query"] {
        let words = many_words(alloc, command, 100_000)?;
        assert_eq!(rt;
            rule_of(read_words(alloc, &words)?),
            Some(Rule::BadWords),
            "{command}"
        );
    }
    let option = long_text(alloc, "build func D --", 999_998)?;
    check_rule(&rt, alloc, Rule::BadWords, option.as_str())?;
    let value = long_text(alloc, "build func D --seeds=", 1_000_000)?;
    check_rule(
        &rt,
        alloc,
        Rule::BadValue(OptionName::Seeds),
        value.as_str(),
    )?;
    let dump = long_text(alloc, "query ", 1_000_000)?;
    match task(alloc, dump.as_str())? {
        Task::Query(dump) => assert_eq!(rt; dump.as_str().len(), 1_000_000),
        _ => assert!(rt; false),
    }
    Ok(())
}

/// Checks a build of the dump D.
fn check_build<R: Abort>(
    rt: &R,
    task: &Task,
    seeds: &[u64],
    method: Method,
    sig_bits: u32,
    values: Option<&str>,
) {
    match task {
        Task::Build(build) => {
            assert_eq!(rt; build.seeds.as_slice(), seeds);
            assert!(rt; build.plan.method == method);
            assert_eq!(rt; build.plan.sig_bits, sig_bits);
            assert_eq!(rt; build.plan.log_bucket, 0);
            assert_eq!(rt; build.plan.signed, 0);
            assert_eq!(rt; build.dump.as_str(), "D");
            match (&build.values, values) {
                (Some(given), Some(wanted)) => assert_eq!(rt; given.as_str(), wanted),
                (None, None) => {}
                _ => assert!(rt; false, "values"),
            }
        }
        _ => assert!(rt; false, "no build"),
    }
}

#[test]
fn builds(rt: HostRuntime) -> Result<(), Fail> {
    let alloc = rt.alloc();
    check_build(
        &rt,
        &task(alloc, "build func D")?,
        &[0, 1, 2, 3],
        Method::Mwhc,
        192,
        None,
    );
    check_build(
        &rt,
        &task(alloc, "build func --seeds=7,8 D --sig-bits 0")?,
        &[7, 8],
        Method::Mwhc,
        0,
        None,
    );
    check_build(
        &rt,
        &task(alloc, "build --values=a=b func D --method=gov3")?,
        &[0, 1, 2, 3],
        Method::Gov3,
        192,
        Some("a=b"),
    );
    check_build(
        &rt,
        &task(alloc, "build func D --seeds 18446744073709551615")?,
        &[u64::MAX],
        Method::Mwhc,
        192,
        None,
    );
    Ok(())
}

#[test]
fn builds_of_each_kind(rt: HostRuntime) -> Result<(), Fail> {
    let alloc = rt.alloc();
    let cases = [
        ("build lcp D --log-bucket 3", Kind::Lcp, 3, 0),
        ("build lcp2 D --log-bucket=12", Kind::Lcp2, 12, 0),
        ("build lcp2 D --signed=1", Kind::Lcp2, 5, 1),
        ("build hollow D", Kind::Hollow, 0, 0),
        ("build hollow D --signed 64", Kind::Hollow, 0, 64),
        ("build hollowdist D", Kind::HollowDist, 5, 0),
        ("build hollowdist D --log-bucket 0", Kind::HollowDist, 0, 0),
    ];
    for (line, kind, log_bucket, signed) in cases {
        match task(alloc, line)? {
            Task::Build(build) => {
                assert_eq!(rt; build.plan.kind, kind, "{line}");
                assert_eq!(rt; build.plan.log_bucket, log_bucket, "{line}");
                assert_eq!(rt; build.plan.handle_bits, 0, "{line}");
                assert_eq!(rt; build.plan.signed, signed, "{line}");
                assert_eq!(rt; build.plan.method, Method::Mwhc, "{line}");
            }
            _ => assert!(rt; false, "{line}"),
        }
    }
    match task(alloc, "build hollowdist D --method gov3")? {
        Task::Build(build) => assert_eq!(rt; build.plan.method, Method::Gov3),
        _ => assert!(rt; false, "no build"),
    }
    Ok(())
}

#[test]
fn names_of_dumps(rt: HostRuntime) -> Result<(), Fail> {
    let alloc = rt.alloc();
    for name in ["D", "help", "a=b"] {
        match task(alloc, format!(in alloc; "query {name}")?.as_str())? {
            Task::Query(dump) => assert_eq!(rt; dump.as_str(), name),
            _ => assert!(rt; false, "{name}"),
        }
    }
    match task(alloc, "open d/e.sux")? {
        Task::Open(dump) => assert_eq!(rt; dump.as_str(), "d/e.sux"),
        _ => assert!(rt; false),
    }
    match task(alloc, "dump D")? {
        Task::Dump(dump) => assert_eq!(rt; dump.as_str(), "D"),
        _ => assert!(rt; false),
    }
    Ok(())
}
