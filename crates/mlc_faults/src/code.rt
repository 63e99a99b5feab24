// The codes of refusals.

ghost use Rattle.std.specs.Prelude.{◌≡◌};
ghost use Rattle.mlc_faults.specs.Code.{code_number, code_text};

/// Why a project is refused.
#[derive(Clone, Copy, PartialEq, Eq, Debug)]
pub enum Code {
    NoToken,
    Syntax,
    ConstantRange,
    RealConstant,
    TooDeep,
    FilesTooLarge,
    MlbSyntax,
    MlbCycle,
    PathVariable,
    Extension,
    TooManyFiles,
    Unbound,
    NoTyping,
    NoPrincipalTyping,
    Restriction,
    ModuleRule,
    TypeTooLarge,
    ExpansionTooLarge,
    ImageTooLarge,
    /// This compiler doesn't compile it yet.
    NotCompiled,
}

impl Code {
    /// The number after the letter E.
    pub fn number(self) -> u32
        ensures { result ≡ code_number self }
    {
        match self {
            Code::NoToken => 10,
            Code::Syntax => 11,
            Code::ConstantRange => 12,
            Code::RealConstant => 13,
            Code::TooDeep => 14,
            Code::FilesTooLarge => 15,
            Code::MlbSyntax => 20,
            Code::MlbCycle => 21,
            Code::PathVariable => 22,
            Code::Extension => 23,
            Code::TooManyFiles => 24,
            Code::Unbound => 30,
            Code::NoTyping => 31,
            Code::NoPrincipalTyping => 32,
            Code::Restriction => 33,
            Code::ModuleRule => 34,
            Code::TypeTooLarge => 40,
            Code::ExpansionTooLarge => 41,
            Code::ImageTooLarge => 42,
            Code::NotCompiled => 90,
        }
    }

    /// The text after the number; of `Unbound` the identifier follows it.
    pub fn text(self) -> &'static str
        ensures { result.now ≡ code_text self }
    {
        match self {
            Code::NoToken => "no token",
            Code::Syntax => "syntax error",
            Code::ConstantRange => "constant out of range",
            Code::RealConstant => "real constant",
            Code::TooDeep => "nested deeper than 400",
            Code::FilesTooLarge => "files over size limit",
            Code::MlbSyntax => "mlb syntax error",
            Code::MlbCycle => "cycle of mlb files",
            Code::PathVariable => "unknown path variable",
            Code::Extension => "unknown extension",
            Code::TooManyFiles => "more than 4096 files",
            Code::Unbound => "unbound identifier",
            Code::NoTyping => "no typing",
            Code::NoPrincipalTyping => "no principal typing",
            Code::Restriction => "restriction broken",
            Code::ModuleRule => "module rule broken",
            Code::TypeTooLarge => "type over 65536 nodes",
            Code::ExpansionTooLarge => "expansion over 1048576 nodes",
            Code::ImageTooLarge => "image over 134217728 words",
            Code::NotCompiled => "not compiled yet",
        }
    }
}
