//! The widths that words have.

ghost use Rattle.std.specs.Prelude.{◌≡◌, ◌≢◌, ◌-◌, ◌^◌, IfSome, IfNone};
ghost use Rattle.cmm_words.specs.Widths.{bits, bytes};

/// How many bits a word has: 8, 16, 32 or 64.
#[derive(Clone, Copy, Debug)]
pub enum Width {
    W8,
    W16,
    W32,
    W64,
}

impl Width {
    /// The number of bits.
    pub fn bits(self) -> u64
        ensures { result ≡ bits self }
    {
        match self {
            Width::W8 => 8,
            Width::W16 => 16,
            Width::W32 => 32,
            Width::W64 => 64,
        }
    }

    /// The number of bytes.
    pub fn bytes(self) -> u64
        ensures { result ≡ bytes self }
    {
        self.bits() / 8
    }

    /// The width of this many bits, if there is one.
    pub fn from_bits(count: u64) -> Option<Width>
        ensures some { IfSome result (λ width. bits width ≡ count) }
        ensures none { IfNone result ((width : Width) → bits width ≢ count) }
    {
        match count {
            8 => Some(Width::W8),
            16 => Some(Width::W16),
            32 => Some(Width::W32),
            64 => Some(Width::W64),
            _ => None,
        }
    }

    /// The greatest word of this width, whose bits are all ones.
    pub fn max(self) -> u64
        ensures { result ≡ 2 ^ bits self - 1 }
    {
        match self {
            Width::W8 => 0xFF,
            Width::W16 => 0xFFFF,
            Width::W32 => 0xFFFF_FFFF,
            Width::W64 => u64::MAX,
        }
    }
}
