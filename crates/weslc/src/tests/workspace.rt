//! A workspace that is edited and asked.

use crate::tests::answer::{Answer, Kind, Known, Wanted};
use crate::tests::given::{keeping, path, text};
use crate::tests::play::{Played, Row, Trial, is_right, play};
use std::alloc::Global;
use std::test::Fail;
use weslc_workspace::{Compiled, Feature, Linked, Workspace};

const ROOT: &str = "import package::m::two; fn g(x: u32) -> u32 { return x * (two + 1); }";

const M: &str = "const two = 2;";

const COMPILED: &str = "fn g(x: u32) -> u32 {\n    return x * 3;\n}\n";

const LINKED: &str =
    "fn g(x: u32) -> u32 {\n    return x * (package_m_two + 1);\n}\nconst package_m_two = 2;\n";

const FAULTY: &str = "fn (";

/// What is done with a workspace.
#[derive(Clone, Copy)]
enum Step {
    Set(&'static str, &'static str),
    /// Whether something is there.
    Remove(&'static str, bool),
    Flag(&'static str),
    /// The options that keep `g`.
    Options,
    Compile,
    Link,
}

/// A step. After it, what `compile` answers; of `Compile` and `Link`, what these do; and how many texts were parsed and compilations finished.
#[derive(Clone, Copy)]
struct Done {
    step: Step,
    wanted: Option<Wanted>,
    parses: u64,
    runs: u64,
}

fn after(step: Step, wanted: Option<Wanted>, parses: u64, runs: u64) -> Done {
    Done {
        step,
        wanted,
        parses,
        runs,
    }
}

/// The steps of a session. Where `compile` is asked for after a refused edit, its answer is not stale.
fn all_steps() -> [Done; 16] {
    let text = Some(Wanted::Text(COMPILED));
    let fault = Some(Wanted::Error(Kind::Syntax));
    [
        after(Step::Set("package", ROOT), None, 0, 0),
        after(Step::Set("package::m", M), None, 0, 0),
        after(Step::Compile, text, 2, 1),
        after(Step::Set("package::z", FAULTY), text, 2, 1),
        after(Step::Compile, text, 2, 1),
        after(Step::Set("package::m", FAULTY), text, 2, 1),
        after(Step::Compile, fault, 3, 2),
        after(Step::Remove("package::z", true), fault, 3, 2),
        after(Step::Remove("package::z", false), fault, 3, 2),
        after(Step::Flag("unused"), fault, 3, 2),
        after(Step::Compile, fault, 3, 3),
        after(Step::Link, fault, 3, 3),
        after(Step::Set("package::m", M), fault, 3, 3),
        after(Step::Link, Some(Wanted::Text(LINKED)), 4, 3),
        after(Step::Options, None, 4, 3),
        after(Step::Compile, text, 4, 4),
    ]
}

/// A workspace, a step, and how many texts were parsed before it.
#[derive(Drop)]
struct Session {
    workspace: Workspace,
    done: Done,
    parses: u64,
}

fn of_compile(answer: &Compiled, wanted: Wanted) -> Answer {
    match answer {
        Ok((text, _)) => wanted.of_text(text.as_str()),
        Err(refusal) => wanted.of_error(refusal.kind()),
    }
}

fn of_link(answer: &Linked, wanted: Wanted) -> Answer {
    match answer {
        Ok((text, _)) => wanted.of_text(text.as_str()),
        Err(error) => wanted.of_error(error.kind()),
    }
}

/// How an edit was answered.
fn of_edit<E: Drop>(answer: Result<(), E>) -> Answer {
    match answer {
        Ok(()) => Answer::Right,
        Err(_) => Answer::Refused,
    }
}

fn of_test(is_right: bool) -> Answer {
    if is_right {
        Answer::Right
    } else {
        Answer::Wrong
    }
}

impl Session {
    fn set(&mut self, alloc: Global, at: &str, says: &str) -> Answer {
        match (path(alloc, at), text(alloc, says)) {
            (Some(path), Some(text)) => of_edit(self.workspace.set_module(&path, text)),
            _ => Answer::Untold,
        }
    }

    fn remove(&mut self, alloc: Global, at: &str, is_there: bool) -> Answer {
        match path(alloc, at) {
            Some(path) => of_test(self.workspace.remove_module(&path) == is_there),
            None => Answer::Untold,
        }
    }

    fn set_options(&mut self, alloc: Global) -> Answer {
        match keeping(alloc, "g") {
            Some(options) => {
                self.workspace.set_options(options);
                Answer::Right
            }
            None => Answer::Untold,
        }
    }

    fn compile(&mut self) -> Answer {
        match self.done.wanted {
            Some(wanted) => of_compile(self.workspace.compile(), wanted),
            None => Answer::Right,
        }
    }

    fn link(&mut self) -> Answer {
        match self.done.wanted {
            Some(wanted) => of_link(self.workspace.link(), wanted),
            None => Answer::Right,
        }
    }

    fn answer(&mut self, alloc: Global) -> Answer {
        match self.done.step {
            Step::Set(at, says) => self.set(alloc, at, says),
            Step::Remove(at, is_there) => self.remove(alloc, at, is_there),
            Step::Flag(name) => of_edit(self.workspace.set_feature(name, Feature::Enable)),
            Step::Options => self.set_options(alloc),
            Step::Compile => self.compile(),
            Step::Link => self.link(),
        }
    }

    fn counts(&self) -> (u64, u64) {
        (self.workspace.parses(), self.workspace.runs())
    }

    /// Whether the last answer of `compile` still stands after an edit that was refused.
    fn stands(&mut self) -> bool {
        self.compile() == Answer::Right && self.counts() == (self.done.parses, self.done.runs)
    }

    /// Whether a refused `compile` or `link` counted no compilation, and no more texts than it may parse.
    fn counts_are_right(&self, runs: u64) -> bool {
        let parses = self.workspace.parses();
        self.workspace.runs() == runs && self.parses <= parses && parses <= self.done.parses
    }
}

impl Trial for Session {
    fn call(&mut self, alloc: Global) -> Answer {
        let mut answer = self.answer(alloc);
        if answer == Answer::Untold {
            answer = self.answer(alloc);
        }
        if answer == Answer::Right && self.counts() != (self.done.parses, self.done.runs) {
            return Answer::Wrong;
        }
        answer
    }

    fn is_unchanged(&mut self, _alloc: Global) -> Option<bool> {
        let runs = self.done.runs;
        Some(match self.done.step {
            Step::Compile => self.counts_are_right(runs.saturating_sub(1)),
            Step::Link => self.counts_are_right(runs),
            _ => self.stands(),
        })
    }
}

fn new_session(alloc: Global) -> Option<Session> {
    let workspace = Workspace::new(alloc, path(alloc, "package")?, keeping(alloc, "g")?);
    Some(Session {
        workspace,
        done: after(Step::Compile, None, 0, 0),
        parses: 0,
    })
}

/// How the first steps go that do not go as they should, if any.
fn play_steps(alloc: Global, session: &mut Session) -> Played {
    let mut all = Played::Right;
    for done in all_steps() {
        session.parses = session.workspace.parses();
        session.done = done;
        match play(alloc, session) {
            Played::Right => {}
            Played::Refused => all = Played::Refused,
            Played::Wrong => return Played::Wrong,
        }
    }
    all
}

/// All steps.
struct Steps;

impl Row for Steps {
    fn play(&self, alloc: Global) -> Played {
        match new_session(alloc) {
            Some(mut session) => play_steps(alloc, &mut session),
            None => Played::Refused,
        }
    }
}

#[test]
fn sessions_go_on(rt: HostRuntime) -> Result<(), Fail> {
    assert!(rt; is_right(rt.alloc(), &Steps));
    Ok(())
}
