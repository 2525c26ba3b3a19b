// The arguments of a call. One that is missing reads 0; one that is outside a narrower type reads as that type's
// nearest number, which is outside every range of document 01 too, so that the call itself refuses it.

// Argument i.
pub fn arg(args: &[i64], i: usize) -> i64 {
    args.get(i).copied().unwrap_or(0)
}

// The first N arguments.
pub fn front<const N: usize>(args: &[i64]) -> [i64; N] {
    let mut numbers: [i64; N] = [0; N];
    for (number, z) in numbers.iter_mut().zip(args) {
        *number = *z;
    }
    numbers
}

// Stores a number where there is a place for it.
pub fn store(numbers: &mut [i64], i: usize, value: i64) {
    if let Some(number) = numbers.get_mut(i) {
        *number = value;
    }
}

// A number of 32 bits.
pub fn as_i32(z: i64) -> i32 {
    z.clamp(-2147483648, 2147483647) as i32
}

// A number of 32 bits without a sign.
pub fn as_u32(z: i64) -> u32 {
    z.clamp(0, 4294967295) as u32
}

// A count or a place.
pub fn as_usize(z: i64) -> usize {
    usize::try_from(z).unwrap_or(0)
}

// A count of so few as there is room for, as a number.
pub fn counted(n: usize) -> i64 {
    i64::try_from(n).unwrap_or(i64::MAX)
}
