// Rows of the definitions. The calls do nothing; their contracts are the rows.

ghost use Rattle.std.specs.Prelude.{◌≡◌, ℕ, true, false, List, length};
ghost use Rattle.topics.specs.Text.{levels, has_length, is_shallow};

/// Shows how long a Topic Name or a Topic Filter may be, 1 to 65,535 bytes (MQTT 4.7.3), and how
/// many levels this broker takes, 32.
pub fn numbers_of_texts()
    ensures empty { (text : List ℕ) → length text ≡ 0 → has_length text ≡ false }
    ensures shortest { (text : List ℕ) → length text ≡ 1 → has_length text ≡ true }
    ensures longest { (text : List ℕ) → length text ≡ 65535 → has_length text ≡ true }
    ensures longer { (text : List ℕ) → length text ≡ 65536 → has_length text ≡ false }
    ensures deepest { (text : List ℕ) → length (levels text) ≡ 32 → is_shallow text ≡ true }
    ensures deeper { (text : List ℕ) → length (levels text) ≡ 33 → is_shallow text ≡ false }
{}
