//! Imports as text.

ghost use Rattle.std.specs.Prelude.{◌≡◌, ◌++◌, Some, map, codes};
ghost use Rattle.std.specs.Option.{option_map};
ghost use Rattle.std.specs.Fmt.{WritesOnOk};
ghost use Rattle.wgsl_declarations.specs.ImportsTree.{collection, imps};
ghost use Rattle.wgsl_declarations.specs.ImportsView.{item_tree, content_tree, import_tree, importing_tree};
ghost use Rattle.wgsl_declarations.specs.ImportsPrint.{rename_text, steps_text, content_text, imps_text, imp_text, importing_text};
ghost use Rattle.wgsl_expressions.specs.Print.{commas};

use crate::imports::import::{Import, ImportContent, ImportItem, ImportStatement};
use std::fmt;
use std::fmt::Display;
use wgsl_expressions::{Ident, Text, write_attributes, write_qualifier};

fn write_rename<W: fmt::Write>(rename: &Option<Ident>, f: &mut fmt::Formatter<W>) -> fmt::Result
    ensures { WritesOnOk W.write_str_gives f.old result (rename_text (option_map (λ r. r.name) rename.now)) f.new }
{
    match rename {
        None => Ok(()),
        Some(ident) => {
            f.write_str(" as ")?;
            f.write_str(ident.as_str())
        }
    }
}

impl fmt::Display for ImportItem {
    ghost output = { λ x. Some (content_text (item_tree x)) };

    fn fmt<W: fmt::Write>(&self, f: &mut fmt::Formatter<W>) -> fmt::Result {
        f.write_str(self.ident.as_str())?;
        write_rename(&self.rename, f)
    }
}

/// Writes the names that lead further, each with `::` behind it.
fn write_steps<W: fmt::Write>(path: &[Text], f: &mut fmt::Formatter<W>) -> fmt::Result
    ensures { WritesOnOk W.write_str_gives f.old result (steps_text path.now) f.new }
{
    for name in path {
        name.fmt(f)?;
        f.write_str("::")?;
    }
    Ok(())
}

impl fmt::Display for ImportContent {
    ghost output = { λ x. Some (content_text (content_tree x)) };

    #[cycle(display)]
    #[tactic(auto, using(crate::proofs::ImportsTexts::text_of_item, crate::proofs::ImportsTexts::text_of_collection))]
    fn fmt<W: fmt::Write>(&self, f: &mut fmt::Formatter<W>) -> fmt::Result {
        match self {
            ImportContent::Item(x) => x.fmt(f),
            ImportContent::Collection(x) => write_collection(x.as_slice(), f),
        }
    }
}

/// Writes imports in braces.
#[cycle(display)]
fn write_collection<W: fmt::Write>(imports: &[Import], f: &mut fmt::Formatter<W>) -> fmt::Result
    ensures { WritesOnOk W.write_str_gives f.old result (content_text (collection (imps (map import_tree imports.now)))) f.new }
{
    f.write_str("{")?;
    write_imports(imports, f)?;
    f.write_str("}")
}

/// Writes imports with `, ` between them.
#[cycle(display)]
fn write_imports<W: fmt::Write>(imports: &[Import], f: &mut fmt::Formatter<W>) -> fmt::Result
    ensures { WritesOnOk W.write_str_gives f.old result (imps_text (imps (map import_tree imports.now))) f.new }
{
    write_each_import(imports, f)
}

#[cycle(display)]
fn write_each_import<W: fmt::Write>(imports: &[Import], f: &mut fmt::Formatter<W>) -> fmt::Result
    ensures { WritesOnOk W.write_str_gives f.old result (commas (λ i. imp_text (import_tree i)) imports.now) f.new }
{
    if let [first, rest @ ..] = imports {
        first.fmt(f)?;
        for import in rest {
            f.write_str(", ")?;
            import.fmt(f)?;
        }
    }
    Ok(())
}

impl fmt::Display for Import {
    ghost output = { λ x. Some (imp_text (import_tree x)) };

    #[cycle(display)]
    fn fmt<W: fmt::Write>(&self, f: &mut fmt::Formatter<W>) -> fmt::Result {
        write_steps(self.path.as_slice(), f)?;
        self.content.fmt(f)
    }
}

impl fmt::Display for ImportStatement {
    ghost output = { λ x. Some (importing_text (importing_tree x)) };

    fn fmt<W: fmt::Write>(&self, f: &mut fmt::Formatter<W>) -> fmt::Result {
        write_attributes(self.attributes.as_slice(), f)?;
        f.write_str("import ")?;
        write_qualifier(&self.path, f)?;
        self.content.fmt(f)?;
        f.write_str(";\n")
    }
}
