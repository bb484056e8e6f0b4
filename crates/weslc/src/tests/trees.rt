//! Calls on the trees of modules.

use crate::tests::answer::{Answer, Kind, Known, Wanted, kind_of};
use crate::tests::given::{COMPARISON, KERNEL, KERNEL_LOWERED, features};
use crate::tests::play::{Played, Row, Trial, is_right, play_made};
use std::alloc::{AllocError, Global};
use std::test::Fail;
use wesl_cond::{Features, run};
use wesl_load::HeldUnit;
use weslc_bundle::{check_unit, lower, parse_str};
use wgsl_guard::guard_templates;

const COMPARED: &str =
    "fn f(p: bool, q: bool, r: bool) -> bool {\n    return q;\n}\nfn g(a: i32, b: i32, c: i32, d: i32) {\n    let r = f(a < b, true || (1 == 2), c > d);\n    v = r;\n}\nvar<private> v: bool;\n";

const GUARDED: &str =
    "fn f(p: bool, q: bool, r: bool) -> bool {\n    return q;\n}\nfn g(a: i32, b: i32, c: i32, d: i32) {\n    let r = f((a) < b, true || (1 == 2), c > d);\n    v = r;\n}\nvar<private> v: bool;\n";

const LOWERED: &str =
    "fn f(p: bool, q: bool, r: bool) -> bool {\n    return q;\n}\nfn g(a: i32, b: i32, c: i32, d: i32) {\n    let r: bool = f(a < b, true, c > d);\n    v = r;\n}\nvar<private> v: bool;\n";

const KERNEL_PRINTED: &str =
    "import package::m::two;\n@group(0) @binding(0) var<storage, read_write> dst: array<u32>;\n@compute @workgroup_size(1) fn main(@builtin(local_invocation_index) i: u32) {\n    dst[i] = i + two;\n}\n";

const KERNEL_WHOLE: &str =
    "const two = 2; @group(0) @binding(0) var<storage, read_write> dst: array<u32>; @compute @workgroup_size(1) fn main(@builtin(local_invocation_index) i: u32) { dst[i] = i + two; }";

const PUBLISHED: &str = "@publish import package::n::y;";

const PUBLISHED_PRINTED: &str = "@publish import package::n::y;\n";

const CHAIN: &str = "@if(f) fn a() {} @elif(k) fn b() {} @else fn c() {}";

const CHAIN_PRINTED: &str = "@if(f) fn a() {}\n@elif(k) fn b() {}\n@else fn c() {}\n";

const CHAIN_LEFT: &str = "@if(k) fn b() {}\n@else fn c() {}\n";

const TRUE_CHAIN: &str = "@if(k) fn a() {} @elif(true) fn b() {} @else fn c() {}";

const TRUE_CHAIN_LEFT: &str = "@if(k) fn a() {}\n@else fn b() {}\n";

/// A call on a tree.
#[derive(Clone, Copy)]
enum Call {
    Check,
    Guard,
    Decide,
    Lower,
}

/// A call on the tree of a text, and the text of what it leaves, or its error.
#[derive(Clone, Copy)]
struct OnTree {
    call: Call,
    text: &'static str,
    wanted: Wanted,
}

/// A tree on which a call is made, and its text before.
#[derive(Drop)]
struct Tree {
    call: Call,
    unit: HeldUnit,
    before: String,
    features: Features,
    wanted: Wanted,
}

fn printed(alloc: Global, unit: &HeldUnit) -> Result<String, AllocError> {
    let unit = unit.get();
    Ok(format!(in alloc; "{unit}")?)
}

/// How a tree was made or changed.
fn answer_of(alloc: Global, unit: &HeldUnit, error: Option<Kind>, wanted: Wanted) -> Answer {
    if let Some(kind) = error {
        return wanted.of_error(kind);
    }
    match printed(alloc, unit) {
        Ok(text) => wanted.of_text(text.as_str()),
        Err(AllocError) => Answer::Untold,
    }
}

impl Tree {
    fn error(&mut self, alloc: Global) -> Option<Kind> {
        match self.call {
            Call::Check => kind_of(check_unit(alloc, self.unit.get())),
            Call::Guard => kind_of(guard_templates(alloc, self.unit.get_mut())),
            Call::Decide => kind_of(run(alloc, self.unit.get_mut(), &self.features)),
            Call::Lower => kind_of(lower(alloc, self.unit.get_mut(), 1000)),
        }
    }
}

impl Trial for Tree {
    fn call(&mut self, alloc: Global) -> Answer {
        let error = self.error(alloc);
        answer_of(alloc, &self.unit, error, self.wanted)
    }

    fn is_unchanged(&mut self, alloc: Global) -> Option<bool> {
        let now = printed(alloc, &self.unit).ok()?;
        Some(now.as_str() == self.before.as_str())
    }
}

fn unit_of(alloc: Global, text: &str) -> Option<HeldUnit> {
    Some(HeldUnit::new(parse_str(alloc, text).ok()?))
}

impl OnTree {
    fn made(&self, alloc: Global) -> Option<Tree> {
        let features = features(alloc)?;
        let unit = unit_of(alloc, self.text)?;
        let before = printed(alloc, &unit).ok()?;
        Some(Tree {
            call: self.call,
            unit,
            before,
            features,
            wanted: self.wanted,
        })
    }
}

impl Row for OnTree {
    fn play(&self, alloc: Global) -> Played {
        play_made(alloc, self.made(alloc))
    }
}

/// A text that is parsed, and what is printed of its tree.
#[derive(Clone, Copy)]
struct Parsed {
    text: &'static str,
    wanted: Wanted,
}

impl Trial for Parsed {
    fn call(&mut self, alloc: Global) -> Answer {
        match parse_str(alloc, self.text) {
            Ok(unit) => answer_of(alloc, &HeldUnit::new(unit), None, self.wanted),
            Err(error) => self.wanted.of_error(error.kind()),
        }
    }

    fn is_unchanged(&mut self, _alloc: Global) -> Option<bool> {
        Some(true)
    }
}

impl Row for Parsed {
    fn play(&self, alloc: Global) -> Played {
        play_made(alloc, Some(*self))
    }
}

/// Whether all calls go as they should.
fn are_right<R: Row>(alloc: Global, rows: &[R]) -> bool {
    for row in rows {
        if !is_right(alloc, row) {
            return false;
        }
    }
    true
}

fn parsing(text: &'static str, printed: &'static str) -> Parsed {
    Parsed {
        text,
        wanted: Wanted::Text(printed),
    }
}

fn left(call: Call, text: &'static str, left: &'static str) -> OnTree {
    OnTree {
        call,
        text,
        wanted: Wanted::Text(left),
    }
}

#[test]
fn texts_are_parsed(rt: HostRuntime) -> Result<(), Fail> {
    let rows = [
        parsing(COMPARISON, COMPARED),
        parsing(KERNEL, KERNEL_PRINTED),
        parsing(CHAIN, CHAIN_PRINTED),
        parsing(PUBLISHED, PUBLISHED_PRINTED),
    ];
    assert!(rt; are_right(rt.alloc(), &rows));
    Ok(())
}

#[test]
fn trees_are_checked(rt: HostRuntime) -> Result<(), Fail> {
    let rows = [
        left(Call::Check, COMPARISON, COMPARED),
        left(Call::Check, KERNEL, KERNEL_PRINTED),
        left(Call::Check, PUBLISHED, PUBLISHED_PRINTED),
    ];
    assert!(rt; are_right(rt.alloc(), &rows));
    Ok(())
}

#[test]
fn comparisons_are_guarded(rt: HostRuntime) -> Result<(), Fail> {
    let rows = [
        left(Call::Guard, COMPARISON, GUARDED),
        left(Call::Guard, KERNEL, KERNEL_PRINTED),
    ];
    assert!(rt; are_right(rt.alloc(), &rows));
    Ok(())
}

#[test]
fn conditions_are_decided(rt: HostRuntime) -> Result<(), Fail> {
    let rows = [
        left(Call::Decide, CHAIN, CHAIN_LEFT),
        left(Call::Decide, TRUE_CHAIN, TRUE_CHAIN_LEFT),
        OnTree {
            call: Call::Decide,
            text: "@else fn a() {}",
            wanted: Wanted::Error(Kind::NoPrecedingIf),
        },
    ];
    assert!(rt; are_right(rt.alloc(), &rows));
    Ok(())
}

#[test]
fn trees_are_lowered(rt: HostRuntime) -> Result<(), Fail> {
    let rows = [
        left(Call::Lower, COMPARISON, LOWERED),
        left(Call::Lower, KERNEL_WHOLE, KERNEL_LOWERED),
    ];
    assert!(rt; are_right(rt.alloc(), &rows));
    Ok(())
}
