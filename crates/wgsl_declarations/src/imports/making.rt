//! Trees that are made of their parts.

use crate::imports::directive::{
    DiagnosticDirective, EnableDirective, GlobalDirective, RequiresDirective,
};
use crate::imports::import::{ImportContent, ImportItem};

impl From<DiagnosticDirective> for GlobalDirective {
    ghost use Rattle.std.specs.Prelude.{◌≡◌};
    ghost use Rattle.wgsl_declarations.specs.declared.imports.directive.GlobalDirective.TheVariants.{Diagnostic};

    ghost from_gives = { λ x made. made ≡ Diagnostic x };

    fn from(x: DiagnosticDirective) -> GlobalDirective {
        GlobalDirective::Diagnostic(x)
    }
}

impl From<EnableDirective> for GlobalDirective {
    ghost use Rattle.std.specs.Prelude.{◌≡◌};
    ghost use Rattle.wgsl_declarations.specs.declared.imports.directive.GlobalDirective.TheVariants.{Enable};

    ghost from_gives = { λ x made. made ≡ Enable x };

    fn from(x: EnableDirective) -> GlobalDirective {
        GlobalDirective::Enable(x)
    }
}

impl From<RequiresDirective> for GlobalDirective {
    ghost use Rattle.std.specs.Prelude.{◌≡◌};
    ghost use Rattle.wgsl_declarations.specs.declared.imports.directive.GlobalDirective.TheVariants.{Requires};

    ghost from_gives = { λ x made. made ≡ Requires x };

    fn from(x: RequiresDirective) -> GlobalDirective {
        GlobalDirective::Requires(x)
    }
}

impl From<ImportItem> for ImportContent {
    ghost use Rattle.std.specs.Prelude.{◌≡◌};
    ghost use Rattle.wgsl_declarations.specs.declared.imports.import.ImportContent.TheVariants.{Item};

    ghost from_gives = { λ x made. made ≡ Item x };

    fn from(x: ImportItem) -> ImportContent {
        ImportContent::Item(x)
    }
}
