// Worked examples of the definitions. The functions do nothing; their contracts are the examples.

ghost use Rattle.std.specs.Prelude.{◌≡◌, ℕ, true, false, List, length};
ghost use Rattle.packet_base.specs.ClientId.{has_client_length};

/// Shows the limit of this broker on a Client Identifier, 1 to 64 bytes.
pub fn numbers_of_fields()
    ensures empty { (text : List ℕ) → length text ≡ 0 → has_client_length text ≡ false }
    ensures shortest { (text : List ℕ) → length text ≡ 1 → has_client_length text ≡ true }
    ensures longest { (text : List ℕ) → length text ≡ 64 → has_client_length text ≡ true }
    ensures longer { (text : List ℕ) → length text ≡ 65 → has_client_length text ≡ false }
{}
