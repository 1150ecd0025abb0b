// What stands in a table or an output beforehand, far from all that is written there.

pub trait Pattern: PartialEq + Copy {
    // What stands at a place.
    fn before(place: usize) -> Self;
}

impl Pattern for u32 {
    fn before(place: usize) -> u32 {
        // `as`, here and below: no From takes a usize to a smaller number, and what is left of the place fits
        3735928559 - (place % 65536) as u32
    }
}

impl Pattern for u8 {
    fn before(place: usize) -> u8 {
        128 + (place % 128) as u8
    }
}

pub fn fill<T: Pattern>(space: &mut [T]) {
    for (place, value) in space.iter_mut().enumerate() {
        *value = T::before(place);
    }
}

// Whether everything behind the first so many places is as it was.
pub fn is_kept<T: Pattern>(space: &[T], written: usize) -> bool {
    space
        .iter()
        .enumerate()
        .skip(written)
        .all(|(place, value)| *value == T::before(place))
}
