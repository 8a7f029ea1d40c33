//! Inputs of the tables.

/// Each word that a word names gets a number added.
pub const SCATTER: &str = "long a[4];
const long ix[4];
for (long t = 0; t < 2; t++) {
  for (long i = 0; i < 4; i++) {
    a[ix[i]] += t + 1;
  }
}
data
a 1 2 3 4
ix 0 0 2 3
";

/// Each word is computed from another one.
pub const FIRST: &str = "long a[4];
for (long t = 0; t < 2; t++) {
  for (long i = 0; i < 4; i++) {
    a[i] = a[3 - i] + t * 10 + i;
  }
}
";

/// From its second iteration on the second read is outside the array.
pub const SHIFTED: &str = "long a[4];
for (long t = 0; t < 2; t++) {
  for (long i = 0; i < 4; i++) {
    a[i] = a[i] + a[i + 3];
  }
}
";
