//! What a command line asks for.

/// What is to be done.
#[derive(Clone, Copy, PartialEq, Eq)]
pub enum Verb {
    Link,
    Precompile,
    Compile,
    Check,
    Run,
    Eval,
}

impl Verb {
    /// The word of the command line.
    pub fn name(self) -> &'static str {
        match self {
            Verb::Link => "link",
            Verb::Precompile => "precompile",
            Verb::Compile => "compile",
            Verb::Check => "check",
            Verb::Run => "run",
            Verb::Eval => "eval",
        }
    }

    /// What it does, as help says it.
    pub fn about(self) -> &'static str {
        match self {
            Verb::Link => "Put what the kept names use into one text",
            Verb::Precompile => "Fix flags in the text of FILE alone",
            Verb::Compile => "Link, validate and evaluate constants",
            Verb::Check => "Parse, link and validate; write no text",
            Verb::Run => "Run an entry point over bound values",
            Verb::Eval => "Evaluate a constant expression",
        }
    }

    /// The command of a bundle that does it. `Check` links.
    pub fn command(self) -> &'static str {
        match self {
            Verb::Link | Verb::Check => "link",
            Verb::Precompile => "precompile",
            Verb::Compile => "compile",
            Verb::Run => "run",
            Verb::Eval => "eval",
        }
    }
}

/// How an error is written.
#[derive(Clone, Copy, PartialEq, Eq)]
pub enum Format {
    /// For people: a sentence, the place with its line, and what to change where that is known.
    Text,
    /// The line that `weslc` writes.
    Line,
    /// One JSON object.
    Json,
}

/// A feature flag, and the word for what it is set to.
#[derive(Clone, Copy)]
pub struct Flag<'a> {
    pub name: &'a str,
    pub setting: &'a str,
}

/// A package's name, and its folder.
#[derive(Clone, Copy)]
pub struct Package<'a> {
    pub name: &'a str,
    pub folder: &'a str,
}

/// What a command line asks for, in its words.
#[derive(Drop)]
pub struct Request<'a> {
    pub verb: Verb,
    /// The root module's file.
    pub file: &'a str,
    /// The folder of its package, where one is named.
    pub root: Option<&'a str>,
    /// The other packages.
    pub packages: Vec<Package<'a>>,
    /// Whether files are read that links lead to outside of their package's folder.
    pub follows_links: bool,
    pub keep: Vec<&'a str>,
    pub flags: Vec<Flag<'a>>,
    pub default_feature: Option<&'a str>,
    pub mode: Option<&'a str>,
    pub max_modules: Option<u32>,
    pub max_steps: Option<u64>,
    pub output: Option<&'a str>,
    pub map: Option<&'a str>,
    /// What is run.
    pub entry: Option<&'a str>,
    /// The files that have what a run is handed, as JSON.
    pub bindings: Option<&'a str>,
    pub inputs: Option<&'a str>,
    pub overrides: Option<&'a str>,
    /// What is evaluated.
    pub expression: Option<&'a str>,
    pub format: Format,
}
