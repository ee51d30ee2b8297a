//! The operations on words (RISC-V Unprivileged ISA 20191213, sections 2.4 and 7).
ghost use Rattle.std.specs.Prelude.{◌≡◌, ◌*ℤ◌, int_lt};
ghost use Rattle.std.specs.Int.{int_shr};
ghost use Rattle.rv_exec.specs.Word.{
  add,
  is_overflow,
  less,
  less_unsigned,
  product,
  quotient,
  quotient_unsigned,
  remainder,
  remainder_unsigned,
  shift_left,
  shift_right,
  shift_right_signed,
  signed,
  sub,
  upper_mixed,
  upper_signed,
  upper_unsigned,
  word_of,
};

pub fn add(a: u32, b: u32) -> u32
    ensures { result ≡ add a b }
{
    a.wrapping_add(b)
}

pub fn sub(a: u32, b: u32) -> u32
    ensures { result ≡ sub a b }
{
    a.wrapping_sub(b)
}

/// `a` shifted to the left by the lower five bits of `b`.
pub fn sll(a: u32, b: u32) -> u32
    ensures { result ≡ shift_left a b }
{
    a.wrapping_shl(b)
}

/// `a` shifted to the right by the lower five bits of `b`, with zeros above.
pub fn srl(a: u32, b: u32) -> u32
    ensures { result ≡ shift_right a b }
{
    a.wrapping_shr(b)
}

/// `a` shifted to the right by the lower five bits of `b`, with its sign above.
pub fn sra(a: u32, b: u32) -> u32
    ensures { result ≡ shift_right_signed a b }
{
    a.cast_signed().wrapping_shr(b).cast_unsigned()
}

/// Whether `a` is less than `b` as signed numbers.
pub fn is_less(a: u32, b: u32) -> bool
    ensures { result ≡ int_lt (signed a) (signed b) }
{
    a.cast_signed() < b.cast_signed()
}

/// 1 where `a` is less than `b` as signed numbers, or else 0.
pub fn slt(a: u32, b: u32) -> u32
    ensures { result ≡ less a b }
{
    u32::from(is_less(a, b))
}

/// 1 where `a` is less than `b`, or else 0.
pub fn sltu(a: u32, b: u32) -> u32
    ensures { result ≡ less_unsigned a b }
{
    u32::from(a < b)
}

/// The lower word of the product.
pub fn mul(a: u32, b: u32) -> u32
    ensures { result ≡ product a b }
{
    a.wrapping_mul(b)
}

/// The upper word of a product.
fn upper(product: i64) -> u32
    ensures { result ≡ word_of (int_shr product 32) }
{
    ((product >> 32) as i32).cast_unsigned()
}

/// The product of two signed numbers.
fn signed_product(a: u32, b: u32) -> i64
    ensures { result ≡ signed a *ℤ signed b }
{
    i64::from(a.cast_signed()) * i64::from(b.cast_signed())
}

/// The upper word of the product of two signed numbers.
pub fn mulh(a: u32, b: u32) -> u32
    ensures { result ≡ upper_signed a b }
{
    upper(signed_product(a, b))
}

/// The upper word of the product of a signed and an unsigned number.
pub fn mulhsu(a: u32, b: u32) -> u32
    ensures { result ≡ upper_mixed a b }
{
    upper(i64::from(a.cast_signed()) * i64::from(b))
}

/// The upper word of the product of two unsigned numbers.
pub fn mulhu(a: u32, b: u32) -> u32
    ensures { result ≡ upper_unsigned a b }
{
    ((u64::from(a) * u64::from(b)) >> 32) as u32
}

/// Whether the words are -2^31 and -1, whose quotient fits no word.
fn overflows(a: u32, b: u32) -> bool
    ensures { result ≡ is_overflow a b }
{
    a == 1 << 31 && b == u32::MAX
}

/// The quotient of two signed numbers, rounded towards zero.
pub fn div(a: u32, b: u32) -> u32
    ensures { result ≡ quotient a b }
{
    if b == 0 {
        u32::MAX
    } else if overflows(a, b) {
        1 << 31
    } else {
        (a.cast_signed() / b.cast_signed()).cast_unsigned()
    }
}

/// The remainder of two signed numbers, with the sign of the dividend.
pub fn rem(a: u32, b: u32) -> u32
    ensures { result ≡ remainder a b }
{
    if b == 0 {
        a
    } else if overflows(a, b) {
        0
    } else {
        (a.cast_signed() % b.cast_signed()).cast_unsigned()
    }
}

/// The quotient of two unsigned numbers.
pub fn divu(a: u32, b: u32) -> u32
    ensures { result ≡ quotient_unsigned a b }
{
    if b == 0 { u32::MAX } else { a / b }
}

/// The remainder of two unsigned numbers.
pub fn remu(a: u32, b: u32) -> u32
    ensures { result ≡ remainder_unsigned a b }
{
    if b == 0 { a } else { a % b }
}
