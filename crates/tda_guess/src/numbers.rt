// Numbers of a guess, which may wrap, and lists that are read and written where the place is there.
ghost use Rattle.std.specs.Prelude.{◌≡◌, length};

// Flows and prices count in parts of this size.
pub(crate) const ONE: i128 = 1 << 16;

// Responses, flows for a price, count in parts of this size.
pub(crate) const WHOLE: i128 = 1 << 40;

// A price that stands for none.
pub(crate) const FAR: i128 = 1 << 80;

// a + b.
pub(crate) fn plus(a: i128, b: i128) -> i128 {
    a.wrapping_add(b)
}

// a - b.
pub(crate) fn minus(a: i128, b: i128) -> i128 {
    a.wrapping_sub(b)
}

// a · b.
pub(crate) fn times(a: i128, b: i128) -> i128 {
    a.wrapping_mul(b)
}

// The greatest whole number that is at most a / b, and 0 where b isn't above 0.
pub(crate) fn ratio(a: i128, b: i128) -> i128 {
    if b <= 0 {
        return 0;
    }
    a.div_euclid(b)
}

// The nearest whole number to a number in parts.
pub(crate) fn nearest(a: i128) -> i128 {
    ratio(plus(a, ONE / 2), ONE)
}

// What stands at a place, or else `other`.
pub(crate) fn read<T: Copy>(list: &[T], place: usize, other: T) -> T {
    if place < list.len() {
        return list[place];
    }
    other
}

// Changes what stands at a place, where it is there.
pub(crate) fn write<T: Copy>(list: &mut [T], place: usize, item: T)
    ensures { length list.new ≡ length list.old }
{
    if place < list.len() {
        list[place] = item;
    }
}
