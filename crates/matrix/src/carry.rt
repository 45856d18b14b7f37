// How the sum of the columns that a number picks changes from one number to the next.
ghost use Rattle.std.specs.Prelude.{◌≡◌};
ghost use Rattle.algebra.specs.Carry.{flips};

// What a place changes by from number k to number k + 1: the carry walks up the columns.
pub fn flip(columns: &[u32], k: usize) -> u32
    ensures { result ≡ flips columns.now k }
{
    let mut sum = 0;
    let mut left = k;
    for column in columns {
        sum ^= column;
        if left % 2 == 0 {
            return sum;
        }
        left /= 2;
    }
    sum
}
