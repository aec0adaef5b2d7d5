// Arrays of any type of which the first so many places count, and the rest is zero: a line of 8, a column of a matrix of 8 by 8.
#![tactic(auto)]

ghost use Rattle.std.specs.Prelude.{◌≡◌, ◌≤◌, ◌<◌, ℕ, List, [], get_or};
ghost use Rattle.rules.specs.Matrices.{row};

// At each place below n what f makes of it, and zero behind.
pub fn filled<T: Copy, F: Fn(usize) -> T, const N: usize>(zero: T, n: usize, f: F) -> [T; N]
    requires few { n ≤ N }
    requires callable { (i : ℕ) → i < n → F.pre f i }
    ensures made { (i : ℕ) → i < n → F.post f i (get_or result i zero) }
    ensures rest { (i : ℕ) → n ≤ i → get_or result i zero ≡ zero }
{
    let mut made = [zero; N];
    for i in 0..n {
        made[i] = f(i);
    }
    made
}

// Column l of a matrix, as a line.
#[tactic(auto, using(folds::specs::Loops::filling_none, folds::specs::Loops::filling_more, folds::specs::Loops::filling_all), unfolding(rules::specs::Matrices::row))]
pub fn column<T: Copy>(zero: T, k: usize, m: [[T; 8]; 8], l: usize) -> [T; 8]
    requires { (k ≤ 8) × (l < 8) }
    ensures { result ≡ row k zero (λ j. get_or (get_or m j []) l zero) }
{
    // No `filled`: tried, and what a closure reads out of an array of T is not inferred.
    let mut made = [zero; 8];
    for j in 0..k {
        made[j] = m[j][l];
    }
    made
}
