//! The calls on modules.

use crate::tests::answer::{Answer, Kind, Known, Wanted};
use crate::tests::given::{COMPARISON, KERNEL, KERNEL_LOWERED, add, features, has, keeping, path};
use crate::tests::play::{Played, Row, Trial, is_right, play_made};
use serde_json::Value;
use std::alloc::Global;
use std::test::Fail;
use wesl_cond::Features;
use weslc_bundle::{
    Binding, Options, RunResult, VirtualResolver, compile, eval, link, precompile, read_bindings,
    result_text, run,
};
use wgsl_base::Items;
use wgsl_memory::Inputs;
use wgsl_path::ModulePath;

const COMPILED_COMPARISON: &str =
    "fn f(p: bool, q: bool, r: bool) -> bool {\n    return q;\n}\nfn g(a: i32, b: i32, c: i32, d: i32) {\n    let r: bool = f((a) < b, true, c > d);\n    v = r;\n}\nvar<private> v: bool;\n";

const TWO: &str = "const two = 2;";

const BOUND: &str =
    r#"[{"group":0,"binding":0,"space":"storage","access":"read_write","value":["0u","0u","0u"]}]"#;

const RAN: &str = "answer: none\nbinding 0 0: array(0u, 3u, 0u)\nsteps: 0\n";

const USER: &str = "import package::m::y; fn g() -> u32 { return y; }";

const PUBLISHED: &str = "@publish import package::n::y;";

const IMPORTED: &str = "import package::n::y;";

const SEVEN: &str = "const y = 7;";

const LINKED: &str = "fn g() -> u32 {\n    return package_n_y;\n}\nconst package_n_y = 7;\n";

/// The modules that a call is made on: the root, `package::m` and `package::n`.
type Texts = [(&'static str, &'static str); 3];

const ONE: Texts = [
    ("package", COMPARISON),
    ("package::m", TWO),
    ("package::n", SEVEN),
];

const RUNNING: Texts = [
    ("package", KERNEL),
    ("package::m", TWO),
    ("package::n", SEVEN),
];

const PUBLIC: Texts = [
    ("package", USER),
    ("package::m", PUBLISHED),
    ("package::n", SEVEN),
];

const PRIVATE: Texts = [
    ("package", USER),
    ("package::m", IMPORTED),
    ("package::n", SEVEN),
];

#[derive(Clone, Copy)]
enum Call {
    Link,
    Compile,
    /// Of the entry `main`, at index 1.
    Run,
    /// Of this expression.
    Eval(&'static str),
}

/// A call that keeps a name, and what it answers.
#[derive(Clone, Copy)]
struct OnModules {
    call: Call,
    texts: Texts,
    keep: &'static str,
    wanted: Wanted,
}

/// What a call is made on.
#[derive(Drop)]
struct Modules {
    row: OnModules,
    resolver: VirtualResolver,
    root: ModulePath,
    options: Options,
    inputs: Inputs,
    bindings: Items<Binding>,
}

fn bound(alloc: Global) -> Option<Items<Binding>> {
    let value: Value = serde_json::from_str(alloc, BOUND).ok()?;
    read_bindings(alloc, &value).ok()
}

fn resolver_of(alloc: Global, texts: &Texts) -> Option<VirtualResolver> {
    let mut resolver = VirtualResolver::new(alloc);
    for (at, says) in texts {
        add(alloc, &mut resolver, at, says)?;
    }
    Some(resolver)
}

/// Whether these are the modules, in this order.
fn has_texts(alloc: Global, resolver: &VirtualResolver, texts: &Texts) -> Option<bool> {
    has(alloc, resolver, texts)
}

impl OnModules {
    fn made(&self, alloc: Global) -> Option<Modules> {
        let mut inputs = Inputs::new_zero_initialized(alloc);
        inputs.local_invocation_index = Some(1);
        Some(Modules {
            row: *self,
            resolver: resolver_of(alloc, &self.texts)?,
            root: path(alloc, "package")?,
            options: keeping(alloc, self.keep)?,
            inputs,
            bindings: bound(alloc)?,
        })
    }
}

impl Modules {
    fn link(&mut self, alloc: Global) -> Answer {
        let answer = link(alloc, &mut self.resolver, &self.root, &self.options);
        self.row.wanted.of(answer)
    }

    fn compile(&mut self, alloc: Global) -> Answer {
        let answer = compile(alloc, &mut self.resolver, &self.root, &self.options);
        self.row.wanted.of(answer)
    }

    fn eval(&mut self, alloc: Global, text: &str) -> Answer {
        let answer = eval(alloc, &mut self.resolver, &self.root, &self.options, text);
        self.row.wanted.of(answer)
    }

    fn run(&mut self, alloc: Global) -> Answer {
        let answer = run(
            alloc,
            &mut self.resolver,
            &self.root,
            &self.options,
            "main",
            &self.inputs,
            self.bindings.as_slice(),
            &[],
        );
        of_printed(alloc, answer, self.row.wanted)
    }
}

/// What is told by a text that is made of it.
trait Printed {
    fn text(&self, alloc: Global) -> Option<String>;
}

impl Printed for RunResult {
    fn text(&self, alloc: Global) -> Option<String> {
        result_text(alloc, self).ok()
    }
}

/// How a call was answered, over any types, since to prove their drop is dear.
fn of_printed<T: Printed + Drop, E: Known + Drop>(
    alloc: Global,
    answer: Result<T, E>,
    wanted: Wanted,
) -> Answer {
    match answer {
        Ok(value) => match value.text(alloc) {
            Some(text) => wanted.of_text(text.as_str()),
            None => Answer::Untold,
        },
        Err(error) => wanted.of_error(error.kind()),
    }
}

impl Trial for Modules {
    fn call(&mut self, alloc: Global) -> Answer {
        match self.row.call {
            Call::Link => self.link(alloc),
            Call::Compile => self.compile(alloc),
            Call::Run => self.run(alloc),
            Call::Eval(text) => self.eval(alloc, text),
        }
    }

    fn is_unchanged(&mut self, alloc: Global) -> Option<bool> {
        let texts = self.row.texts;
        has_texts(alloc, &self.resolver, &texts)
    }
}

impl Row for OnModules {
    fn play(&self, alloc: Global) -> Played {
        play_made(alloc, self.made(alloc))
    }
}

/// A text that is precompiled, and what is left of it.
#[derive(Clone, Copy)]
struct Precompiled {
    text: &'static str,
    wanted: Wanted,
}

#[derive(Drop)]
struct Precompiling {
    row: Precompiled,
    features: Features,
}

impl Trial for Precompiling {
    fn call(&mut self, alloc: Global) -> Answer {
        let Precompiled { text, wanted } = self.row;
        wanted.of(precompile(alloc, text, &self.features))
    }

    fn is_unchanged(&mut self, _alloc: Global) -> Option<bool> {
        Some(true)
    }
}

impl Precompiled {
    fn made(&self, alloc: Global) -> Option<Precompiling> {
        let features = features(alloc)?;
        Some(Precompiling {
            row: *self,
            features,
        })
    }
}

impl Row for Precompiled {
    fn play(&self, alloc: Global) -> Played {
        play_made(alloc, self.made(alloc))
    }
}

#[test]
fn modules_are_linked(rt: HostRuntime) -> Result<(), Fail> {
    let (call, keep) = (Call::Link, "g");
    let cases = [
        (PUBLIC, Wanted::Text(LINKED)),
        (PRIVATE, Wanted::Error(Kind::Private)),
    ];
    for (texts, wanted) in cases {
        let row = OnModules {
            call,
            texts,
            keep,
            wanted,
        };
        assert!(rt; is_right(rt.alloc(), &row));
    }
    Ok(())
}

#[test]
fn modules_are_compiled(rt: HostRuntime) -> Result<(), Fail> {
    let call = Call::Compile;
    let cases = [
        (ONE, "g", COMPILED_COMPARISON),
        (RUNNING, "main", KERNEL_LOWERED),
    ];
    for (texts, keep, text) in cases {
        let wanted = Wanted::Text(text);
        let row = OnModules {
            call,
            texts,
            keep,
            wanted,
        };
        assert!(rt; is_right(rt.alloc(), &row));
    }
    Ok(())
}

#[test]
fn entries_run(rt: HostRuntime) -> Result<(), Fail> {
    let row = OnModules {
        call: Call::Run,
        texts: RUNNING,
        keep: "main",
        wanted: Wanted::Text(RAN),
    };
    assert!(rt; is_right(rt.alloc(), &row));
    Ok(())
}

#[test]
fn expressions_are_evaluated(rt: HostRuntime) -> Result<(), Fail> {
    let row = OnModules {
        call: Call::Eval("array(1, 2i)[two - 1]"),
        texts: RUNNING,
        keep: "main",
        wanted: Wanted::Text("2i"),
    };
    assert!(rt; is_right(rt.alloc(), &row));
    Ok(())
}

#[test]
fn texts_are_precompiled(rt: HostRuntime) -> Result<(), Fail> {
    let cases = [
        (
            "@if(f) fn a() {} @elif(k) fn b() {} @else fn c() {}",
            Wanted::Text("@if(k) fn b() {}\n@else fn c() {}\n"),
        ),
        (
            "@if(k) fn a() {} @elif(true) fn b() {} @else fn c() {}",
            Wanted::Text("@if(k) fn a() {}\n@else fn b() {}\n"),
        ),
        ("@else fn a() {}", Wanted::Error(Kind::NoPrecedingIf)),
    ];
    for (text, wanted) in cases {
        assert!(rt; is_right(rt.alloc(), &Precompiled { text, wanted }));
    }
    Ok(())
}
