ghost use Rattle.std.specs.Prelude.{◌≡◌, ◌<◌};
ghost use Rattle.dict_rows.specs.Bucket.{bucket_of};

/// The number of buckets.
pub const BUCKETS: usize = 65_536;
/// The factor of the letters before the last.
const FACTOR: usize = 403;

/// The bucket of a reading, a hash of its letters.
pub fn bucket_of(reading: &[char]) -> usize
    ensures bucket { result ≡ bucket_of reading.now }
    ensures bounded { result < BUCKETS }
{
    let mut bucket = 0;
    for letter in reading {
        bucket = (bucket * FACTOR + *letter as usize) % BUCKETS;
    }
    bucket
}
