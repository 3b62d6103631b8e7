ghost use Rattle.std.specs.Prelude.{◌≡◌, ◌≤◌, IfOk};
ghost use Rattle.mh_made_class.specs.Sites.{AreMakeable, IsMakeableSite, site_width};

use mh_base::{NoMemory, Seq};
use mh_class_tests::sites::text;
use mh_made_class::{MadeSite, MadeSites, make_class};
use mh_main::status::DONE;
use mh_main::{Attempt, TopAnswer, top};
use mh_outside::{Gate, MemoryInputs, MemorySink, OpenGate, TestGate};
use std::alloc::{AllocError, Global};
use std::collections::BTreeMap;
use std::sync::Wait;
use std::test::Fail;
use std::thread::Threads;

const WORDS: [&str; 9] = [
    "--mode",
    "run",
    "--leaves",
    "leaves.txt",
    "--scripts",
    "scripts.txt",
    "--plan",
    "plan.txt",
    "made.class",
];

/// The first line of the script that each call site names.
const HEADER: &str = "\
    script made/Boot link (Ljava/lang/invoke/MethodHandles$Lookup;Ljava/lang/String;Ljava/lang/invok\
    e/MethodType;)Ljava/lang/invoke/CallSite;\n";

/// The last lines: a call returns the serial of the attempt by which its site is linked.
const RETURN_SERIAL: &str = "let n serial\nlet k constant J n\nreturn k\nend\n";

/// A call site of the script `link` and the type `()J`.
fn site(alloc: Global) -> Result<MadeSite, NoMemory>
    ensures makeable { IfOk result (λ site. IsMakeableSite site) }
    ensures width { IfOk result (λ site. site_width site ≡ 7) }
{
    Ok(MadeSite {
        script: text(alloc, b"link")?,
        ty: text(alloc, b"()J")?,
        args: Seq::new(alloc),
    })
}

/// This many of these call sites.
fn sites(alloc: Global, count: u32) -> Result<MadeSites, NoMemory>
    requires { count ≤ 9000 }
    ensures { IfOk result (λ sites. AreMakeable sites) }
{
    let mut sites = Seq::new(alloc);
    for _ in 0..count {
        sites.push(site(alloc)?)?;
    }
    Ok(sites)
}

/// A class file with this many of these call sites.
fn class_file(alloc: Global, count: u8) -> Result<Vec<u8>, NoMemory> {
    let sites = sites(alloc, u32::from(count))?;
    make_class(alloc, &sites)
}

fn add_file(
    alloc: Global,
    files: &mut BTreeMap<String, Vec<u8>>,
    name: &str,
    bytes: Vec<u8>,
) -> Result<(), AllocError> {
    let name = String::from_str(alloc, name)?;
    match files.insert(name, bytes) {
        Ok(_) => Ok(()),
        Err(_) => Err(AllocError),
    }
}

/// A run's call sites, the lines of their script before the last, and its plan.
#[derive(Clone, Copy)]
struct Input<'a> {
    sites: u8,
    lines: &'a str,
    plan: &'a str,
}

/// The files of a run, whose manifest is empty.
fn files(alloc: Global, input: &Input<'_>) -> Result<BTreeMap<String, Vec<u8>>, Fail> {
    let scripts = [HEADER, input.lines, RETURN_SERIAL].concat(alloc)?;
    let plan = Vec::from_slice(alloc, input.plan.as_bytes())?;
    let mut files = BTreeMap::new(alloc);
    add_file(alloc, &mut files, "leaves.txt", Vec::new(alloc))?;
    add_file(alloc, &mut files, "scripts.txt", scripts.into_bytes())?;
    add_file(alloc, &mut files, "plan.txt", plan)?;
    add_file(
        alloc,
        &mut files,
        "made.class",
        class_file(alloc, input.sites)?,
    )?;
    Ok(files)
}

/// What a run of these words gives, and what it writes.
fn run_words<R: Threads + Wait + Sync, G: Gate + Sync>(
    rt: &R,
    alloc: Global,
    words: &[&str],
    input: &Input<'_>,
    gate: &G,
) -> Result<(TopAnswer, Vec<u8>), Fail> {
    let mut inputs = MemoryInputs::new(files(alloc, input)?, Vec::new(alloc));
    let mut sink = MemorySink {
        bytes: Vec::new(alloc),
        fail: Vec::new(alloc),
        calls: 0,
        faults: 0,
    };
    let answer = top(rt, alloc, words, &mut inputs, &mut sink, gate);
    Ok((answer, sink.bytes))
}

/// What a run without workers gives, and what it writes.
fn run<R: Threads + Wait + Sync, G: Gate + Sync>(
    rt: &R,
    alloc: Global,
    input: &Input<'_>,
    gate: &G,
) -> Result<(TopAnswer, Vec<u8>), Fail> {
    run_words(rt, alloc, &WORDS, input, gate)
}

/// The words of a run with workers; the last one says how many.
fn words_with(workers: &str) -> [&str; 10] {
    [
        "--mode",
        "run",
        "--leaves",
        "leaves.txt",
        "--scripts",
        "scripts.txt",
        "--plan",
        "plan.txt",
        "made.class",
        workers,
    ]
}

/// What races of threads 0 and 1 for one call site write, by what thread 1 records.
const LINKED_BY_1: &str = "\
    site 0 serial 1 linked ()J\n\
    thread 0\n\
    returns j:1 calls -\n\
    thread 1\n\
    returns j:1 calls -\n\
    attempts 2 forms 1 types 1\n";

const LINKED_BY_2: &str = "\
    site 0 serial 2 linked ()J\n\
    thread 0\n\
    returns j:2 calls -\n\
    thread 1\n\
    returns j:2 calls -\n\
    attempts 2 forms 1 types 1\n";

const FAILED_BY_1: &str = "\
    site 0 serial 1 error java/lang/BootstrapMethodError s: cause java/lang/RuntimeException s:failm\
    od\n\
    thread 0\n\
    throws java/lang/BootstrapMethodError s: cause java/lang/RuntimeException s:failmod calls -\n\
    thread 1\n\
    throws java/lang/BootstrapMethodError s: cause java/lang/RuntimeException s:failmod calls -\n\
    attempts 2 forms 1 types 0\n";

const FAILED_BY_2: &str = "\
    site 0 serial 2 error java/lang/BootstrapMethodError s: cause java/lang/RuntimeException s:failm\
    od\n\
    thread 0\n\
    throws java/lang/BootstrapMethodError s: cause java/lang/RuntimeException s:failmod calls -\n\
    thread 1\n\
    throws java/lang/BootstrapMethodError s: cause java/lang/RuntimeException s:failmod calls -\n\
    attempts 2 forms 1 types 0\n";

struct Race {
    name: &'static str,
    lines: &'static str,
    /// What is written if the attempt of thread 1 is the first, and if it is the second.
    texts: [&'static str; 2],
}

static RACES: [Race; 3] = [
    Race {
        name: "a target",
        lines: "",
        texts: [LINKED_BY_1, LINKED_BY_2],
    },
    Race {
        name: "an error of the first attempt",
        lines: "failmod 2 1\n",
        texts: [FAILED_BY_1, LINKED_BY_2],
    },
    Race {
        name: "an error of the second attempt",
        lines: "failmod 2 0\n",
        texts: [LINKED_BY_1, FAILED_BY_2],
    },
];

/// An attempt of the first call site.
fn attempt(thread: u32, serial: u64) -> Attempt {
    Attempt {
        thread,
        site: 0,
        serial,
    }
}

/// Whether a run has two attempts, of these threads in this order, and has recorded that of the
/// serial.
fn has_attempts(answer: &TopAnswer, first: u32, second: u32, recorded: u64) -> bool {
    answer.attempts.as_slice() == [attempt(first, 1), attempt(second, 2)].as_slice()
        && answer.table.as_slice() == [Some(recorded)].as_slice()
}

/// Whether the attempts of a race and its text go together.
fn is_either(answer: &TopAnswer, bytes: &[u8], race: &Race) -> bool {
    let [by_first, by_second] = race.texts;
    has_attempts(answer, 1, 0, 1) && bytes == by_first.as_bytes()
        || has_attempts(answer, 0, 1, 2) && bytes == by_second.as_bytes()
}

/// What a race that thread 1 should win gives, what it writes, and whether its gate gave up.
fn raced<R: Threads + Wait + Sync>(
    rt: &R,
    alloc: Global,
    race: &Race,
) -> Result<(TopAnswer, Vec<u8>, bool), Fail> {
    let gate = TestGate::default();
    let input = Input {
        sites: 1,
        lines: race.lines,
        plan: "thread\nindy 0\nthread\nindy 0\n",
    };
    let (answer, bytes) = run(rt, alloc, &input, &gate)?;
    Ok((answer, bytes, gate.gave_up()))
}

/// What was written, as a text; `?` if it is none.
fn text_of(bytes: &[u8]) -> &str {
    str::from_utf8(bytes).unwrap_or("?")
}

#[test]
fn what_is_recorded_first_is_what_both_threads_get(rt: HostRuntime) -> Result<(), Fail> {
    for race in &RACES {
        let (answer, bytes, gave_up) = raced(&rt, rt.alloc(), race)?;
        assert_eq!(rt; (answer.status, gave_up), (DONE, false), "{}", race.name);
        let attempts = answer.attempts.as_slice();
        assert!(rt;
            is_either(&answer, &bytes, race),
            "{}: {attempts:?}, {}",
            race.name,
            text_of(&bytes)
        );
    }
    Ok(())
}

/// Whether the attempts have the serials from 1 on.
fn are_numbered(attempts: &[Attempt]) -> bool {
    for at in 0..attempts.len() {
        if attempts[at].serial.checked_sub(1) != Some(at as u64) {
            return false;
        }
    }
    true
}

/// How many attempts a thread makes of a site.
fn count_of(attempts: &[Attempt], thread: u32, site: u32) -> usize {
    attempts
        .iter()
        .filter(|it| it.thread == thread && it.site == site)
        .count()
}

/// Whether no thread attempts a site twice.
fn are_single(attempts: &[Attempt]) -> bool {
    attempts
        .iter()
        .all(|it| count_of(attempts, it.thread, it.site) == 1)
}

/// Whether there is an attempt of the site with the serial by which it is linked.
fn is_linked(attempts: &[Attempt], site: usize, serial: Option<u64>) -> bool {
    attempts
        .iter()
        .any(|it| it.site as usize == site && Some(it.serial) == serial)
}

/// Whether each site is linked by one of its attempts.
fn are_linked(attempts: &[Attempt], table: &[Option<u64>]) -> bool {
    for site in 0..table.len() {
        if !is_linked(attempts, site, table[site]) {
            return false;
        }
    }
    true
}

/// What is wrong with a run that should be done and link each of this many sites by one of its
/// attempts.
fn fault_of(answer: &TopAnswer, sites: u8) -> Option<&'static str> {
    let attempts = answer.attempts.as_slice();
    let table = answer.table.as_slice();
    if answer.status != DONE {
        return Some("the status");
    }
    if table.len() != usize::from(sites) {
        return Some("the number of sites");
    }
    if !are_numbered(attempts) {
        return Some("the serials");
    }
    if !are_single(attempts) {
        return Some("a site attempted twice by a thread");
    }
    if !are_linked(attempts, table) {
        return Some("a site that no attempt has linked");
    }
    None
}

/// Runs that call each of their call sites.
static ALL_CALLED: [Input<'static>; 4] = [
    Input {
        sites: 4,
        lines: "",
        plan: "thread\nindy 0\nindy 1\nindy 2\nindy 3\nthread\nindy 0\nindy 1\nindy 2\nindy 3\n",
    },
    Input {
        sites: 4,
        lines: "failmod 2 0\n",
        plan: "thread\nindy 0\nindy 1\nindy 2\nindy 3\nthread\nindy 3\nindy 2\nindy 1\nindy 0\n",
    },
    Input {
        sites: 2,
        lines: "failmod 3 1\n",
        plan: "thread\nindy 0\nindy 0\nindy 1\nindy 0\nthread\nindy 1\nindy 0\nindy 1\nindy 1\n",
    },
    Input {
        sites: 3,
        lines: "",
        plan: "thread\nindy 0\nindy 1\nindy 1\nthread\nindy 2\nindy 1\nindy 2\n",
    },
];

#[test]
fn each_site_is_linked_by_one_of_its_attempts(rt: HostRuntime) -> Result<(), Fail> {
    for input in &ALL_CALLED {
        let (answer, _) = run(&rt, rt.alloc(), input, &OpenGate)?;
        let fault = fault_of(&answer, input.sites);
        assert!(rt; fault.is_none(), "{}: {fault:?} of {answer:?}", input.plan);
    }
    Ok(())
}

/// How many threads race for the site.
const MOST_THREADS: usize = 64;

/// How many calls return what the first of them does that returns.
fn count_alike(text: &[u8]) -> usize {
    let Some(first) = text
        .split(|byte| *byte == b'\n')
        .find(|line| line.starts_with(b"returns "))
    else {
        return 0;
    };
    let lines = text.split(|byte| *byte == b'\n');
    lines.filter(|line| *line == first).count()
}

#[test]
fn all_of_64_threads_get_one_linkage(rt: HostRuntime) -> Result<(), Fail> {
    let alloc = rt.alloc();
    let plan = ["thread\nindy 0\n"; MOST_THREADS].concat(alloc)?;
    let input = Input {
        sites: 1,
        lines: "",
        plan: plan.as_str(),
    };
    let (answer, bytes) = run(&rt, alloc, &input, &OpenGate)?;
    let fault = fault_of(&answer, input.sites);
    assert!(rt; fault.is_none(), "{fault:?} of {answer:?}");
    assert_eq!(rt; count_alike(&bytes), MOST_THREADS);
    Ok(())
}

/// Whether one of this many workers made an attempt, which have the numbers after those of the
/// threads.
fn is_by_worker(attempt: &Attempt, threads: u32, workers: u32) -> bool {
    match attempt.thread.checked_sub(threads) {
        Some(number) => number < workers,
        None => false,
    }
}

/// What is wrong with a run of whose sites each should be attempted once, by a worker.
fn fault_shared_out(
    answer: &TopAnswer,
    sites: u8,
    threads: u32,
    workers: u32,
) -> Option<&'static str> {
    let attempts = answer.attempts.as_slice();
    if attempts.len() != usize::from(sites) {
        return Some("the number of attempts");
    }
    if !attempts.iter().all(|it| is_by_worker(it, threads, workers)) {
        return Some("an attempt of no worker");
    }
    fault_of(answer, sites)
}

/// Whether a thread makes one of two attempts, and another thread the other one.
fn is_by_each(attempts: &[Attempt], first: u32, second: u32) -> bool {
    match attempts {
        [a, b] => {
            a.thread == first && b.thread == second || a.thread == second && b.thread == first
        }
        _ => false,
    }
}

#[test]
fn two_workers_link_a_site_each(rt: HostRuntime) -> Result<(), Fail> {
    let gate = TestGate::default();
    let input = Input {
        sites: 2,
        lines: "",
        plan: "",
    };
    let words = words_with("--prelink=2");
    let (answer, bytes) = run_words(&rt, rt.alloc(), &words, &input, &gate)?;
    let fault = fault_shared_out(&answer, input.sites, 0, 2);
    assert!(rt; fault.is_none(), "{fault:?} of {answer:?}");
    assert!(rt; !gate.gave_up());
    let attempts = answer.attempts.as_slice();
    assert!(rt; is_by_each(attempts, 0, 1), "{attempts:?}");
    let is_ended = bytes.ends_with(b"attempts 2 forms 1 types 1\n");
    assert!(rt; is_ended, "{}", text_of(&bytes));
    Ok(())
}

#[test]
fn threads_attempt_no_site_that_workers_have_linked(rt: HostRuntime) -> Result<(), Fail> {
    let words = words_with("--prelink=3");
    for input in &ALL_CALLED {
        let (answer, _) = run_words(&rt, rt.alloc(), &words, input, &OpenGate)?;
        let fault = fault_shared_out(&answer, input.sites, 2, 3);
        assert!(rt; fault.is_none(), "{}: {fault:?} of {answer:?}", input.plan);
    }
    Ok(())
}

#[test]
fn sixteen_workers_link_each_of_200_sites_once(rt: HostRuntime) -> Result<(), Fail> {
    let input = Input {
        sites: 200,
        lines: "failmod 3 1\n",
        plan: "thread\nindy 7\n",
    };
    let words = words_with("--prelink=16");
    let (answer, _) = run_words(&rt, rt.alloc(), &words, &input, &OpenGate)?;
    let fault = fault_shared_out(&answer, input.sites, 1, 16);
    assert!(rt; fault.is_none(), "{fault:?} of {answer:?}");
    Ok(())
}
