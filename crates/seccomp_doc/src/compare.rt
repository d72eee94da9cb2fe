//! Comparisons of one argument of a system call.

ghost use Rattle.std.specs.Prelude.{◌≡◌, Some};
ghost use Rattle.seccomp_doc.specs.Compare.{admits, is_masked, op_named, op_text};

/// How an argument is compared. All comparisons are of unsigned 64-bit numbers.
#[derive(Clone, Copy, Default)]
pub enum Op {
    /// `SCMP_CMP_NE`: it isn't the value.
    NotEqual,
    /// `SCMP_CMP_LT`: it is below the value.
    LessThan,
    /// `SCMP_CMP_LE`: it is at most the value.
    LessOrEqual,
    /// `SCMP_CMP_EQ`: it is the value.
    #[default]
    Equal,
    /// `SCMP_CMP_GE`: it is at least the value.
    GreaterOrEqual,
    /// `SCMP_CMP_GT`: it is above the value.
    GreaterThan,
    /// `SCMP_CMP_MASKED_EQ`: in the bits of the value, it is the second value.
    MaskedEqual,
}

impl Op {
    /// The operator of this name, as libseccomp spells it.
    #[tactic(auto, unfolding(crate::specs::Compare::op_named))]
    pub fn from_word(word: &str) -> Option<Op>
        ensures { result ≡ op_named word.now }
    {
        match word {
            "SCMP_CMP_NE" => Some(Op::NotEqual),
            "SCMP_CMP_LT" => Some(Op::LessThan),
            "SCMP_CMP_LE" => Some(Op::LessOrEqual),
            "SCMP_CMP_EQ" => Some(Op::Equal),
            "SCMP_CMP_GE" => Some(Op::GreaterOrEqual),
            "SCMP_CMP_GT" => Some(Op::GreaterThan),
            "SCMP_CMP_MASKED_EQ" => Some(Op::MaskedEqual),
            _ => None,
        }
    }

    /// The name, as libseccomp spells it.
    #[tactic(auto, unfolding(crate::specs::Compare::op_named))]
    pub fn word(self) -> &'static str
        ensures text { result.now ≡ op_text self }
        ensures reads_back { op_named result.now ≡ Some self }
    {
        match self {
            Op::NotEqual => "SCMP_CMP_NE",
            Op::LessThan => "SCMP_CMP_LT",
            Op::LessOrEqual => "SCMP_CMP_LE",
            Op::Equal => "SCMP_CMP_EQ",
            Op::GreaterOrEqual => "SCMP_CMP_GE",
            Op::GreaterThan => "SCMP_CMP_GT",
            Op::MaskedEqual => "SCMP_CMP_MASKED_EQ",
        }
    }

    /// Whether the operator has a second value.
    pub fn is_masked(self) -> bool
        ensures { result ≡ is_masked self }
    {
        matches!(self, Op::MaskedEqual)
    }
}

/// A comparison of one argument of a system call, as in seccomp_rule_add(3).
#[derive(Clone, Copy, Default)]
pub struct Compare {
    /// Which argument, from 0.
    pub index: u8,
    /// How it is compared.
    pub op: Op,
    /// What it is compared with; the mask, where the operator is `MaskedEqual`.
    pub value: u64,
    /// What the masked argument is to be; 0 for the other operators.
    pub value_two: u64,
}

impl Compare {
    /// Whether the comparison holds of an argument.
    pub fn admits(&self, word: u64) -> bool
        ensures { result ≡ admits self.now word }
    {
        match self.op {
            Op::NotEqual => word != self.value,
            Op::LessThan => word < self.value,
            Op::LessOrEqual => word <= self.value,
            Op::Equal => word == self.value,
            Op::GreaterOrEqual => word >= self.value,
            Op::GreaterThan => word > self.value,
            Op::MaskedEqual => word & self.value == self.value_two & self.value,
        }
    }
}
