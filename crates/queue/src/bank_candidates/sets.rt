//! Sets of banks.

/// Some banks of a channel, by their numbers, which are below 64: bit k says whether bank k is one of them.
#[derive(Clone, Copy)]
pub struct BankSet {
    bits: u64,
}

impl BankSet {
    ghost use Rattle.std.specs.Prelude.{◌≡◌, ◌≢◌, ◌<◌, ℕ, true, false, not, ◌&&◌, ◌||◌, IfSome, IfNone};
    ghost use Rattle.queue.specs.Sets.{is_in, IsLowest};

    /// No bank.
    #[inline(always)]
    pub fn none() -> Self
        ensures { (k : ℕ) → is_in result k ≡ false }
    {
        BankSet { bits: 0 }
    }

    /// The banks of this set and one more.
    #[inline(always)]
    pub fn with(self, bank: usize) -> Self
        requires { bank < 64 }
        ensures same { is_in result bank ≡ true }
        ensures others { (k : ℕ) → k ≢ bank → is_in result k ≡ is_in self k }
    {
        BankSet {
            bits: self.bits | (1 << bank),
        }
    }

    /// The banks of this set except one.
    #[inline(always)]
    pub fn without(self, bank: usize) -> Self
        requires { bank < 64 }
        ensures same { is_in result bank ≡ false }
        ensures others { (k : ℕ) → k ≢ bank → is_in result k ≡ is_in self k }
    {
        BankSet {
            bits: self.bits & !(1 << bank),
        }
    }

    /// The banks of this set except the lowest.
    #[inline(always)]
    pub fn without_first(self) -> Self
        ensures same { (bank : ℕ) → IsLowest self bank → is_in result bank ≡ false }
        ensures others { (bank k : ℕ) → IsLowest self bank
            → k ≢ bank → is_in result k ≡ is_in self k }
    {
        BankSet {
            bits: self.bits & self.bits.wrapping_sub(1),
        }
    }

    /// The banks of either set.
    #[inline(always)]
    pub fn union(self, others: BankSet) -> Self
        ensures { (k : ℕ) → is_in result k ≡ (is_in self k || is_in others k) }
    {
        BankSet {
            bits: self.bits | others.bits,
        }
    }

    /// The banks of this set that are not in the other.
    #[inline(always)]
    pub fn minus(self, others: BankSet) -> Self
        ensures { (k : ℕ) → is_in result k ≡ (is_in self k && not (is_in others k)) }
    {
        BankSet {
            bits: self.bits & !others.bits,
        }
    }

    /// Whether there is no bank.
    #[inline(always)]
    pub fn is_empty(self) -> bool
        ensures none { result ≡ true → (k : ℕ) → is_in self k ≡ false }
        ensures some { result ≡ false → (k : ℕ) × (k < 64) × (is_in self k ≡ true) }
    {
        self.bits == 0
    }

    /// The lowest bank, if there is one.
    #[inline(always)]
    pub fn first(self) -> Option<usize>
        ensures none { IfNone result ((k : ℕ) → is_in self k ≡ false) }
        ensures lowest { IfSome result (IsLowest self) }
        ensures within { IfSome result (λ bank. bank < 64) }
    {
        if self.bits == 0 {
            None
        } else {
            Some(self.bits.trailing_zeros() as usize)
        }
    }
}
