//! The reserved words and the system tasks that have a place in the grammar.

ghost use Rattle.std.specs.Prelude.{◌≡◌};
ghost use Rattle.v_syntax.specs.Words.{keyword_spelling, reserved_spelling, task_spelling};

/// A reserved word that the grammar has a place for (IEEE 1364-2005, annex B).
#[derive(Clone, Copy, Debug, PartialEq, Eq)]
pub enum Keyword {
    Always,
    Assign,
    Begin,
    Case,
    CaseX,
    CaseZ,
    Default,
    Else,
    End,
    EndCase,
    EndModule,
    For,
    If,
    Initial,
    Input,
    Integer,
    LocalParam,
    Module,
    NegEdge,
    Or,
    Output,
    Parameter,
    PosEdge,
    Reg,
    Wire,
}

/// All keywords.
pub const KEYWORDS: [Keyword; 25] = [
    Keyword::Always,
    Keyword::Assign,
    Keyword::Begin,
    Keyword::Case,
    Keyword::CaseX,
    Keyword::CaseZ,
    Keyword::Default,
    Keyword::Else,
    Keyword::End,
    Keyword::EndCase,
    Keyword::EndModule,
    Keyword::For,
    Keyword::If,
    Keyword::Initial,
    Keyword::Input,
    Keyword::Integer,
    Keyword::LocalParam,
    Keyword::Module,
    Keyword::NegEdge,
    Keyword::Or,
    Keyword::Output,
    Keyword::Parameter,
    Keyword::PosEdge,
    Keyword::Reg,
    Keyword::Wire,
];

impl Keyword {
    /// The bytes of the word.
    pub fn spelling(self) -> &'static [u8]
        ensures { result.now ≡ keyword_spelling self }
    {
        match self {
            Keyword::Always => b"always",
            Keyword::Assign => b"assign",
            Keyword::Begin => b"begin",
            Keyword::Case => b"case",
            Keyword::CaseX => b"casex",
            Keyword::CaseZ => b"casez",
            Keyword::Default => b"default",
            Keyword::Else => b"else",
            Keyword::End => b"end",
            Keyword::EndCase => b"endcase",
            Keyword::EndModule => b"endmodule",
            Keyword::For => b"for",
            Keyword::If => b"if",
            Keyword::Initial => b"initial",
            Keyword::Input => b"input",
            Keyword::Integer => b"integer",
            Keyword::LocalParam => b"localparam",
            Keyword::Module => b"module",
            Keyword::NegEdge => b"negedge",
            Keyword::Or => b"or",
            Keyword::Output => b"output",
            Keyword::Parameter => b"parameter",
            Keyword::PosEdge => b"posedge",
            Keyword::Reg => b"reg",
            Keyword::Wire => b"wire",
        }
    }
}

/// A reserved word that the grammar has no place for. It is no name either (annex B).
#[derive(Clone, Copy, Debug, PartialEq, Eq)]
pub enum ReservedWord {
    And,
    Automatic,
    Buf,
    Deassign,
    DefParam,
    Disable,
    Edge,
    EndFunction,
    EndGenerate,
    EndTask,
    Event,
    Force,
    Forever,
    Fork,
    Function,
    Generate,
    GenVar,
    InOut,
    Join,
    Nand,
    Nor,
    Not,
    Real,
    RealTime,
    Release,
    Repeat,
    Signed,
    Supply0,
    Supply1,
    Task,
    Time,
    Tri,
    Wait,
    While,
    Xnor,
    Xor,
}

/// All reserved words that the grammar has no place for.
pub const RESERVED_WORDS: [ReservedWord; 36] = [
    ReservedWord::And,
    ReservedWord::Automatic,
    ReservedWord::Buf,
    ReservedWord::Deassign,
    ReservedWord::DefParam,
    ReservedWord::Disable,
    ReservedWord::Edge,
    ReservedWord::EndFunction,
    ReservedWord::EndGenerate,
    ReservedWord::EndTask,
    ReservedWord::Event,
    ReservedWord::Force,
    ReservedWord::Forever,
    ReservedWord::Fork,
    ReservedWord::Function,
    ReservedWord::Generate,
    ReservedWord::GenVar,
    ReservedWord::InOut,
    ReservedWord::Join,
    ReservedWord::Nand,
    ReservedWord::Nor,
    ReservedWord::Not,
    ReservedWord::Real,
    ReservedWord::RealTime,
    ReservedWord::Release,
    ReservedWord::Repeat,
    ReservedWord::Signed,
    ReservedWord::Supply0,
    ReservedWord::Supply1,
    ReservedWord::Task,
    ReservedWord::Time,
    ReservedWord::Tri,
    ReservedWord::Wait,
    ReservedWord::While,
    ReservedWord::Xnor,
    ReservedWord::Xor,
];

impl ReservedWord {
    /// The bytes of the word.
    pub fn spelling(self) -> &'static [u8]
        ensures { result.now ≡ reserved_spelling self }
    {
        match self {
            ReservedWord::And => b"and",
            ReservedWord::Automatic => b"automatic",
            ReservedWord::Buf => b"buf",
            ReservedWord::Deassign => b"deassign",
            ReservedWord::DefParam => b"defparam",
            ReservedWord::Disable => b"disable",
            ReservedWord::Edge => b"edge",
            ReservedWord::EndFunction => b"endfunction",
            ReservedWord::EndGenerate => b"endgenerate",
            ReservedWord::EndTask => b"endtask",
            ReservedWord::Event => b"event",
            ReservedWord::Force => b"force",
            ReservedWord::Forever => b"forever",
            ReservedWord::Fork => b"fork",
            ReservedWord::Function => b"function",
            ReservedWord::Generate => b"generate",
            ReservedWord::GenVar => b"genvar",
            ReservedWord::InOut => b"inout",
            ReservedWord::Join => b"join",
            ReservedWord::Nand => b"nand",
            ReservedWord::Nor => b"nor",
            ReservedWord::Not => b"not",
            ReservedWord::Real => b"real",
            ReservedWord::RealTime => b"realtime",
            ReservedWord::Release => b"release",
            ReservedWord::Repeat => b"repeat",
            ReservedWord::Signed => b"signed",
            ReservedWord::Supply0 => b"supply0",
            ReservedWord::Supply1 => b"supply1",
            ReservedWord::Task => b"task",
            ReservedWord::Time => b"time",
            ReservedWord::Tri => b"tri",
            ReservedWord::Wait => b"wait",
            ReservedWord::While => b"while",
            ReservedWord::Xnor => b"xnor",
            ReservedWord::Xor => b"xor",
        }
    }
}

/// A system task that the grammar has a place for (IEEE 1364-2005, clause 18).
#[derive(Clone, Copy, Debug, PartialEq, Eq)]
pub enum SystemTask {
    DumpFile,
    DumpVars,
}

/// All system tasks.
pub const SYSTEM_TASKS: [SystemTask; 2] = [SystemTask::DumpFile, SystemTask::DumpVars];

impl SystemTask {
    /// The bytes of the task's name, `$` first.
    pub fn spelling(self) -> &'static [u8]
        ensures { result.now ≡ task_spelling self }
    {
        match self {
            SystemTask::DumpFile => b"$dumpfile",
            SystemTask::DumpVars => b"$dumpvars",
        }
    }
}
