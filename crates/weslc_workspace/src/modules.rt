//! The texts of a workspace, and which of them were parsed.

ghost use Rattle.std.specs.Prelude.{◌≡◌, IfOk, string_bytes};
ghost use Rattle.wgsl_parser.specs.Texts.{ParsesModule};
ghost use Rattle.weslc_workspace.specs.Told.{AreTold};

use crate::parse::{Parse, ParsedText};
use crate::printed::is_printed;
use indexmap::{IndexMap, IndexSet};
use std::alloc::{AllocError, Global};
use wgsl_base::Text;
use wgsl_path::ModulePath;

/// The texts that are set, by the printed paths of their modules, and what the parser told of those that were parsed since.
#[derive(Drop)]
pub(crate) struct Modules {
    alloc: Global,
    texts: IndexMap<String, Text>,
    parsed: IndexMap<String, Parse>,
    parses: u64,
    ghost told: { AreTold texts parsed },
}

impl Modules {
    ghost use Rattle.std.specs.Prelude.{◌≡◌, List, ℕ, Some, None, IfOk, IfSome, OnOk, OnErr, position, string_bytes};
    ghost use Rattle.std.specs.HashMap.{keys};
    ghost use Rattle.std.specs.Str.{bytes_eq};
    ghost use Rattle.std.specs.Option.{option_copied, is_some};
    ghost use Rattle.wgsl_path.specs.Paths.{path_text};
    ghost use Rattle.weslc_workspace.specs.Outcome.{IsToldOf};
    ghost use Rattle.weslc_workspace.specs.Held.{text_at, is_parsed, parsed_count, IsSet, IsUnparsed, Counts};

    /// No modules.
    pub(crate) fn new(alloc: Global) -> Modules
        ensures texts { (p : List ℕ) → text_at result p ≡ None }
        ensures parses { result.parses ≡ 0 }
        ensures count { parsed_count result ≡ 0 }
    {
        Modules {
            alloc,
            texts: IndexMap::new(alloc),
            parsed: IndexMap::new(alloc),
            parses: 0,
        }
    }

    /// How many texts were parsed; it stops at the largest number.
    pub(crate) fn parses(&self) -> u64
        ensures { result ≡ self.now.parses }
    {
        self.parses
    }

    /// The text of the module with this printed path.
    pub(crate) fn text(&self, path: &str) -> Option<&Text>
        ensures { option_copied result ≡ text_at self.now path.now }
    {
        self.texts.get(path)
    }

    /// What the parser told of that text, where it was parsed.
    pub(crate) fn parse(&self, path: &str) -> Option<&Parse>
        ensures told { IfSome result (λ parse. IsToldOf (text_at self.now path.now) parse.now.outcome) }
    {
        self.parsed.get(path)
    }

    /// Sets the text of a module, which is not parsed yet. Room is made for what the parser will tell of it. Where memory is refused
    /// nothing is changed.
    #[tactic(auto, using(crate::proofs::Maps::told_when_set, crate::proofs::Maps::found))]
    pub(crate) fn set(&mut self, path: &str, text: Text) -> Result<(), AllocError>
        ensures set { OnOk result (IsSet self.old path.now (Some text) self.new) }
        ensures unparsed { OnOk result (IsUnparsed self.old path.now self.new) }
        ensures refused { OnErr result ((p : List ℕ) → text_at self.new p ≡ text_at self.old p) }
        ensures parsed { OnErr result ((p : List ℕ) → is_parsed self.new p ≡ is_parsed self.old p) }
        ensures parses { self.new.parses ≡ self.old.parses }
    {
        let key = String::from_str(self.alloc, path)?;
        let most = self.texts.len().saturating_add(1);
        self.parsed.reserve(most.saturating_sub(self.parsed.len()))?;
        drop(self.texts.insert(key, text)?);
        drop(self.parsed.swap_remove(path));
        Ok(())
    }

    /// Takes a module away, and gives its printed path. It needs no memory.
    #[tactic(auto, using(crate::proofs::Maps::told_when_set, crate::proofs::Maps::found))]
    pub(crate) fn remove(&mut self, path: &ModulePath) -> Option<String>
        ensures path { IfSome result (λ printed. string_bytes printed ≡ path_text path.now) }
        ensures found { is_some result ≡ is_some (text_at self.old (path_text path.now)) }
        ensures set { IsSet self.old (path_text path.now) None self.new }
        ensures unparsed { IsUnparsed self.old (path_text path.now) self.new }
        ensures parses { self.new.parses ≡ self.old.parses }
    {
        let place = self.place_of(path)?;
        let (key, text) = self.texts.swap_remove_index(place)?;
        drop(text);
        drop(self.parsed.swap_remove(key.as_str()));
        Some(key)
    }

    /// Where the text of a module is.
    fn place_of(&self, path: &ModulePath) -> Option<usize>
        ensures { result ≡ position (λ key. bytes_eq (path_text path.now) (string_bytes key)) (keys self.now.texts) }
    {
        self.texts
            .keys()
            .position(|key| is_printed(path, key.as_str()))
    }

    /// Keeps what the parser told of the modules that were asked for, and counts each that is kept. A text of which it was not told is parsed.
    #[tactic(auto, using(crate::proofs::Counting::counts_none, crate::proofs::Counting::counts_more))]
    pub(crate) fn settle(
        &mut self,
        asked: &IndexSet<String>,
        fresh: IndexMap<String, ParsedText>,
    ) -> Result<(), AllocError>
        ensures texts { self.new.texts ≡ self.old.texts }
        ensures counts { Counts self.old self.new }
    {
        let mut fresh = fresh;
        for path in asked.iter() {
            let parsed = fresh.swap_remove_entry(path.as_str());
            self.settle_one(path.as_str(), parsed)?;
        }
        Ok(())
    }

    /// Keeps what the parser told of one module, where it has a text that was not parsed.
    #[tactic(auto, using(crate::proofs::Counting::counts_none, crate::proofs::Counting::counts_one, crate::proofs::Maps::told_when_parsed))]
    fn settle_one(
        &mut self,
        path: &str,
        parsed: Option<(String, ParsedText)>,
    ) -> Result<(), AllocError>
        ensures texts { self.new.texts ≡ self.old.texts }
        ensures counts { Counts self.old self.new }
    {
        let Some(text) = self.texts.get(path) else {
            return Ok(());
        };
        if self.parsed.contains_key(path) {
            return Ok(());
        }
        let (key, parse) = parse_of(self.alloc, path, text, parsed)?;
        drop(self.parsed.insert(key, parse)?);
        self.parses = self.parses.saturating_add(1);
        Ok(())
    }
}

/// What the parser tells of the text of a module, which it may have told already.
fn parse_of(
    alloc: Global,
    path: &str,
    text: &Text,
    parsed: Option<(String, ParsedText)>,
) -> Result<(String, Parse), AllocError>
    ensures told { IfOk result (λ answer. ∥ ParsesModule text.now answer.1.outcome ∥₁) }
    ensures path { IfOk result (λ answer. string_bytes answer.0 ≡ path.now) }
{
    if let Some((key, ParsedText { text: same, parse })) = parsed
        && key.as_str() == path
        && same.as_str() == text.as_str()
    {
        return Ok((key, parse));
    }
    let key = String::from_str(alloc, path)?;
    Ok((key, Parse::new(alloc, text.as_str())?))
}
