//! Modules as text.

ghost use Rattle.std.specs.Prelude.{◌≡◌, ◌++◌, Some, map};
ghost use Rattle.std.specs.List.{flat_map};
ghost use Rattle.std.specs.Fmt.{WritesOnOk};
ghost use Rattle.wgsl_declarations.specs.ImportsView.{importing_tree, directive_tree};
ghost use Rattle.wgsl_declarations.specs.ImportsPrint.{importing_text, directive_text};
ghost use Rattle.wgsl_declarations.specs.View.{declaration_tree, declarations_tree, unit_tree};
ghost use Rattle.wgsl_declarations.specs.Print.{decl_text, lines_text, unit_text};

use crate::declaration::GlobalDeclarationNode;
use crate::imports::{GlobalDirective, ImportStatement};
use crate::unit::TranslationUnit;
use std::fmt;
use std::fmt::Display;

impl fmt::Display for TranslationUnit {
    ghost output = { λ x. Some (unit_text (unit_tree x)) };

    fn fmt<W: fmt::Write>(&self, f: &mut fmt::Formatter<W>) -> fmt::Result {
        write_imports(self.imports.as_slice(), f)?;
        write_directives(self.global_directives.as_slice(), f)?;
        write_declarations(self.global_declarations.as_slice(), f)
    }
}

fn write_imports<W: fmt::Write>(
    imports: &[ImportStatement],
    f: &mut fmt::Formatter<W>,
) -> fmt::Result
    ensures { WritesOnOk W.write_str_gives f.old result (flat_map importing_text (map importing_tree imports.now)) f.new }
{
    write_each_import(imports, f)
}

fn write_each_import<W: fmt::Write>(
    imports: &[ImportStatement],
    f: &mut fmt::Formatter<W>,
) -> fmt::Result
    ensures { WritesOnOk W.write_str_gives f.old result (flat_map (λ i. importing_text (importing_tree i)) imports.now) f.new }
{
    for import in imports {
        import.fmt(f)?;
    }
    Ok(())
}

fn write_directives<W: fmt::Write>(
    directives: &[GlobalDirective],
    f: &mut fmt::Formatter<W>,
) -> fmt::Result
    ensures { WritesOnOk W.write_str_gives f.old result (flat_map directive_text (map directive_tree directives.now)) f.new }
{
    write_each_directive(directives, f)
}

fn write_each_directive<W: fmt::Write>(
    directives: &[GlobalDirective],
    f: &mut fmt::Formatter<W>,
) -> fmt::Result
    ensures { WritesOnOk W.write_str_gives f.old result (flat_map (λ d. directive_text (directive_tree d)) directives.now) f.new }
{
    for directive in directives {
        directive.fmt(f)?;
    }
    Ok(())
}

fn write_declarations<W: fmt::Write>(
    declarations: &[GlobalDeclarationNode],
    f: &mut fmt::Formatter<W>,
) -> fmt::Result
    ensures { WritesOnOk W.write_str_gives f.old result (flat_map decl_text (declarations_tree declarations.now)) f.new }
{
    write_each_declaration(declarations, f)
}

fn write_each_declaration<W: fmt::Write>(
    declarations: &[GlobalDeclarationNode],
    f: &mut fmt::Formatter<W>,
) -> fmt::Result
    ensures { WritesOnOk W.write_str_gives f.old result (flat_map (λ n. lines_text (declaration_tree n.node)) declarations.now) f.new }
{
    for declaration in declarations {
        declaration.node().fmt(f)?;
    }
    Ok(())
}
