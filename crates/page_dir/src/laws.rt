//! What callers need to know of splices, places and what is found. Each law is the contract of a function that does nothing.
ghost use Rattle.std.specs.Prelude.{◌≡◌, ℕ, ◌+◌, ◌<◌, ◌≤◌, ◌++◌, List, None, Some, true, false, length, take, drop};
ghost use Rattle.std.specs.List.{slice_get};
ghost use Rattle.std.specs.Option.{IfSome, IsSomeAnd, option_or};
ghost use Rattle.std.specs.Ordering.{is_le, is_lt};
ghost use Rattle.page_dir.specs.Sorted.{MeetsBelow, Rises, last_at_most, rank};
ghost use Rattle.page_dir.specs.Splices.{spliced};

/// How long a splice is, and what stands at its places.
pub fn splices_keep_the_rest<T>()
    ensures count { (at n : ℕ) (new ts : List T) → at + n ≤ length ts → length (spliced at n new ts) + n ≡ length ts + length new }
    ensures before { (at n i : ℕ) (new ts : List T) → at ≤ length ts → i < at → slice_get (spliced at n new ts) i ≡ slice_get ts i }
    ensures inside { (at n i : ℕ) (new ts : List T) → at ≤ length ts → i < length new → slice_get (spliced at n new ts) (at + i) ≡ slice_get new i }
    ensures after { (at n i : ℕ) (new ts : List T) → at ≤ length ts
        → slice_get (spliced at n new ts) (at + length new + i) ≡ slice_get ts (at + n + i) }
{}

/// A splice rises where its new pairs do and meet those before and behind them. Those before are met where the new keys
/// begin at the key from which the run goes, or above it.
pub fn splices_rise<K: Ord, V>()
    ensures ends { (at n : ℕ) (new ps : List (K × V)) → Rises K.cmp ps → Rises K.cmp new
        → MeetsBelow K.cmp (take at ps) new → MeetsBelow K.cmp new (drop (at + n) ps) → Rises K.cmp (spliced at n new ps) }
    ensures from { (key : K) (new ps : List (K × V)) → IfSome (slice_get new 0) (λ p. is_le (K.cmp key p.0) ≡ true)
        → MeetsBelow K.cmp (take (rank K.cmp key ps) ps) new }
{}

/// The rank of a key is its place, or the place where it would come in.
pub fn ranks_are_places<K: Ord, V>()
    ensures at { (ps : List (K × V)) (i : ℕ) (p : K × V) → Rises K.cmp ps → slice_get ps i ≡ Some p → rank K.cmp p.0 ps ≡ i }
    ensures least { (key : K) (ps : List (K × V)) (p : K × V) → slice_get ps (rank K.cmp key ps) ≡ Some p → is_lt (K.cmp p.0 key) ≡ false }
    ensures less { (key : K) (ps : List (K × V)) (i : ℕ) (p : K × V) → i < rank K.cmp key ps → slice_get ps i ≡ Some p
        → is_lt (K.cmp p.0 key) ≡ true }
{}

/// The pair that is found has the greatest key that is at most the one that was looked for.
pub fn found_keys_are_greatest<K: Ord, V>()
    ensures most { (key : K) (ps : List (K × V)) (p : K × V) → last_at_most K.cmp key ps ≡ Some p → is_le (K.cmp p.0 key) ≡ true }
    ensures place { (key : K) (ps : List (K × V)) (p : K × V) → Rises K.cmp ps → last_at_most K.cmp key ps ≡ Some p
        → slice_get ps (rank K.cmp p.0 ps) ≡ Some p }
    ensures next { (key : K) (ps : List (K × V)) (p : K × V) → Rises K.cmp ps → last_at_most K.cmp key ps ≡ Some p
        → IfSome (slice_get ps (rank K.cmp p.0 ps + 1)) (λ q. is_le (K.cmp q.0 key) ≡ false) }
    ensures none { (key : K) (ps : List (K × V)) → last_at_most K.cmp key ps ≡ None → IfSome (slice_get ps 0) (λ q. is_le (K.cmp q.0 key) ≡ false) }
{}

/// What is found in a splice: behind the new pairs, else among them, else before them. Outside the run, what was found
/// before.
pub fn splices_are_searched<K: Ord, V>()
    ensures whole { (key : K) (at n : ℕ) (new ps : List (K × V)) → last_at_most K.cmp key (spliced at n new ps)
        ≡ option_or (last_at_most K.cmp key (drop (at + n) ps)) (option_or (last_at_most K.cmp key new) (last_at_most K.cmp key (take at ps))) }
    ensures before { (key : K) (at n : ℕ) (new ps : List (K × V)) → Rises K.cmp ps → Rises K.cmp (spliced at n new ps)
        → IfSome (slice_get ps at) (λ p. is_le (K.cmp p.0 key) ≡ false)
        → IfSome (slice_get (new ++ drop (at + n) ps) 0) (λ p. is_le (K.cmp p.0 key) ≡ false)
        → last_at_most K.cmp key (spliced at n new ps) ≡ last_at_most K.cmp key ps }
    ensures behind { (key : K) (at n : ℕ) (new ps : List (K × V)) → IsSomeAnd (slice_get ps (at + n)) (λ p. is_le (K.cmp p.0 key) ≡ true)
        → last_at_most K.cmp key (spliced at n new ps) ≡ last_at_most K.cmp key ps }
{}
