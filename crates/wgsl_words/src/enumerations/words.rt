//! Other words and signs of fixed choice.

use std::fmt;
use std::str::FromStr;

/// A severity of a diagnostic (WGSL, "Diagnostics").
#[derive(Clone, Copy, Debug, PartialEq, Eq)]
pub enum DiagnosticSeverity {
    /// `error`
    Error,
    /// `warning`
    Warning,
    /// `info`
    Info,
    /// `off`
    Off,
}

impl fmt::Display for DiagnosticSeverity {
    ghost use Rattle.std.specs.Prelude.{Some};
    ghost use Rattle.wgsl_words.specs.Texts.{diagnostic_severity_text};

    ghost output = { λ word. Some (diagnostic_severity_text word) };

    fn fmt<W: fmt::Write>(&self, f: &mut fmt::Formatter<W>) -> fmt::Result {
        f.write_str(match self {
            DiagnosticSeverity::Error => "error",
            DiagnosticSeverity::Warning => "warning",
            DiagnosticSeverity::Info => "info",
            DiagnosticSeverity::Off => "off",
        })
    }
}

impl FromStr for DiagnosticSeverity {
    ghost use Rattle.wgsl_words.specs.Texts.{ParsesExactly, diagnostic_severity_spelled};

    type Err = ();

    ghost from_str_gives = { ParsesExactly diagnostic_severity_spelled };

    fn from_str(text: &str) -> Result<DiagnosticSeverity, ()> {
        match text {
            "error" => Ok(DiagnosticSeverity::Error),
            "warning" => Ok(DiagnosticSeverity::Warning),
            "info" => Ok(DiagnosticSeverity::Info),
            "off" => Ok(DiagnosticSeverity::Off),
            _ => Err(()),
        }
    }
}

/// How a value is interpolated between vertices (WGSL, "Interpolation").
#[derive(Clone, Copy, Debug, PartialEq, Eq)]
pub enum InterpolationType {
    /// `perspective`
    Perspective,
    /// `linear`
    Linear,
    /// `flat`
    Flat,
}

impl fmt::Display for InterpolationType {
    ghost use Rattle.std.specs.Prelude.{Some};
    ghost use Rattle.wgsl_words.specs.Texts.{interpolation_type_text};

    ghost output = { λ word. Some (interpolation_type_text word) };

    fn fmt<W: fmt::Write>(&self, f: &mut fmt::Formatter<W>) -> fmt::Result {
        f.write_str(match self {
            InterpolationType::Perspective => "perspective",
            InterpolationType::Linear => "linear",
            InterpolationType::Flat => "flat",
        })
    }
}

impl FromStr for InterpolationType {
    ghost use Rattle.wgsl_words.specs.Texts.{ParsesExactly, interpolation_type_spelled};

    type Err = ();

    ghost from_str_gives = { ParsesExactly interpolation_type_spelled };

    fn from_str(text: &str) -> Result<InterpolationType, ()> {
        match text {
            "perspective" => Ok(InterpolationType::Perspective),
            "linear" => Ok(InterpolationType::Linear),
            "flat" => Ok(InterpolationType::Flat),
            _ => Err(()),
        }
    }
}

/// Where a value is sampled for interpolation (WGSL, "Interpolation").
#[derive(Clone, Copy, Debug, PartialEq, Eq)]
pub enum InterpolationSampling {
    /// `center`
    Center,
    /// `centroid`
    Centroid,
    /// `sample`
    Sample,
    /// `first`
    First,
    /// `either`
    Either,
}

impl fmt::Display for InterpolationSampling {
    ghost use Rattle.std.specs.Prelude.{Some};
    ghost use Rattle.wgsl_words.specs.Texts.{interpolation_sampling_text};

    ghost output = { λ word. Some (interpolation_sampling_text word) };

    fn fmt<W: fmt::Write>(&self, f: &mut fmt::Formatter<W>) -> fmt::Result {
        f.write_str(match self {
            InterpolationSampling::Center => "center",
            InterpolationSampling::Centroid => "centroid",
            InterpolationSampling::Sample => "sample",
            InterpolationSampling::First => "first",
            InterpolationSampling::Either => "either",
        })
    }
}

impl FromStr for InterpolationSampling {
    ghost use Rattle.wgsl_words.specs.Texts.{ParsesExactly, interpolation_sampling_spelled};

    type Err = ();

    ghost from_str_gives = { ParsesExactly interpolation_sampling_spelled };

    fn from_str(text: &str) -> Result<InterpolationSampling, ()> {
        match text {
            "center" => Ok(InterpolationSampling::Center),
            "centroid" => Ok(InterpolationSampling::Centroid),
            "sample" => Ok(InterpolationSampling::Sample),
            "first" => Ok(InterpolationSampling::First),
            "either" => Ok(InterpolationSampling::Either),
            _ => Err(()),
        }
    }
}

/// When an expression is evaluated: as the shader module is created, as the pipeline is, or as the shader runs (WGSL, "Shader lifecycle").
/// No text of WGSL writes a stage, so it prints under its own name.
#[derive(Clone, Copy, Debug, PartialEq, Eq)]
pub enum ShaderStage {
    /// `Const`
    Const,
    /// `Override`
    Override,
    /// `Exec`
    Exec,
}

impl fmt::Display for ShaderStage {
    ghost use Rattle.std.specs.Prelude.{Some};
    ghost use Rattle.wgsl_words.specs.Texts.{shader_stage_text};

    ghost output = { λ word. Some (shader_stage_text word) };

    fn fmt<W: fmt::Write>(&self, f: &mut fmt::Formatter<W>) -> fmt::Result {
        f.write_str(match self {
            ShaderStage::Const => "Const",
            ShaderStage::Override => "Override",
            ShaderStage::Exec => "Exec",
        })
    }
}

impl FromStr for ShaderStage {
    ghost use Rattle.wgsl_words.specs.Texts.{ParsesExactly, shader_stage_spelled};

    type Err = ();

    ghost from_str_gives = { ParsesExactly shader_stage_spelled };

    fn from_str(text: &str) -> Result<ShaderStage, ()> {
        match text {
            "Const" => Ok(ShaderStage::Const),
            "Override" => Ok(ShaderStage::Override),
            "Exec" => Ok(ShaderStage::Exec),
            _ => Err(()),
        }
    }
}

/// The sign of an assignment (WGSL, "Assignment statement").
#[derive(Clone, Copy, Debug, PartialEq, Eq)]
pub enum AssignmentOperator {
    /// `=`
    Equal,
    /// `+=`
    PlusEqual,
    /// `-=`
    MinusEqual,
    /// `*=`
    TimesEqual,
    /// `/=`
    DivisionEqual,
    /// `%=`
    ModuloEqual,
    /// `&=`
    AndEqual,
    /// `|=`
    OrEqual,
    /// `^=`
    XorEqual,
    /// `>>=`
    ShiftRightAssign,
    /// `<<=`
    ShiftLeftAssign,
}

impl fmt::Display for AssignmentOperator {
    ghost use Rattle.std.specs.Prelude.{Some};
    ghost use Rattle.wgsl_words.specs.Texts.{assignment_operator_text};

    ghost output = { λ word. Some (assignment_operator_text word) };

    fn fmt<W: fmt::Write>(&self, f: &mut fmt::Formatter<W>) -> fmt::Result {
        f.write_str(match self {
            AssignmentOperator::Equal => "=",
            AssignmentOperator::PlusEqual => "+=",
            AssignmentOperator::MinusEqual => "-=",
            AssignmentOperator::TimesEqual => "*=",
            AssignmentOperator::DivisionEqual => "/=",
            AssignmentOperator::ModuloEqual => "%=",
            AssignmentOperator::AndEqual => "&=",
            AssignmentOperator::OrEqual => "|=",
            AssignmentOperator::XorEqual => "^=",
            AssignmentOperator::ShiftRightAssign => ">>=",
            AssignmentOperator::ShiftLeftAssign => "<<=",
        })
    }
}

impl FromStr for AssignmentOperator {
    ghost use Rattle.wgsl_words.specs.Texts.{ParsesExactly, assignment_operator_spelled};

    type Err = ();

    ghost from_str_gives = { ParsesExactly assignment_operator_spelled };

    fn from_str(text: &str) -> Result<AssignmentOperator, ()> {
        match text {
            "=" => Ok(AssignmentOperator::Equal),
            "+=" => Ok(AssignmentOperator::PlusEqual),
            "-=" => Ok(AssignmentOperator::MinusEqual),
            "*=" => Ok(AssignmentOperator::TimesEqual),
            "/=" => Ok(AssignmentOperator::DivisionEqual),
            "%=" => Ok(AssignmentOperator::ModuloEqual),
            "&=" => Ok(AssignmentOperator::AndEqual),
            "|=" => Ok(AssignmentOperator::OrEqual),
            "^=" => Ok(AssignmentOperator::XorEqual),
            ">>=" => Ok(AssignmentOperator::ShiftRightAssign),
            "<<=" => Ok(AssignmentOperator::ShiftLeftAssign),
            _ => Err(()),
        }
    }
}
