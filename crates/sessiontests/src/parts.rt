// The front of a run and what is behind it. A length above that of the run is brought down to it.

pub fn front<T>(run: &[T], length: usize) -> &[T] {
    &run[..length.min(run.len())]
}

pub fn front_mut<T>(run: &mut [T], length: usize) -> &mut [T] {
    let end = length.min(run.len());
    &mut run[..end]
}

pub fn behind<T>(run: &[T], length: usize) -> &[T] {
    &run[length.min(run.len())..]
}
