// What a system and a list of transfers begin with.
ghost use Rattle.vectors.specs.Reader.{Passed};

use crate::reader::Reader;

// n, and the numbers of the matrix, or of the list that stands in its place, of the right side and of the box.
#[derive(Drop)]
pub(crate) struct Equations<'a, 'b> {
    pub n: usize,
    pub matrix: &'a [i64],
    pub right: &'a [i64],
    pub bounds: &'b mut [i64],
}

// Room for these numbers, for at most so many of the matrix or the list.
#[derive(Drop)]
pub(crate) struct Room<const MATRIX: usize> {
    matrix: [i64; MATRIX],
    right: [i64; 128],
    bounds: [i64; 128],
}

impl<const MATRIX: usize> Room<MATRIX> {
    pub fn new() -> Self {
        Room {
            matrix: [0; MATRIX],
            right: [0; 128],
            bounds: [0; 128],
        }
    }

    // Reads n, the lengths of all three, and so many numbers.
    pub fn read(&mut self, reader: &mut Reader) -> Equations<'_, '_>
        ensures { Passed reader.old reader.new }
    {
        let Room {
            matrix,
            right,
            bounds,
        } = self;
        let [n, matrix_size, right_size, bounds_size] = reader.naturals::<4>();
        Equations {
            n,
            matrix: reader.fill(matrix, matrix_size),
            right: reader.fill(right, right_size),
            bounds: reader.fill(bounds, bounds_size),
        }
    }
}
