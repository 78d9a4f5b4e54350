// Theorems about what is retained. The functions do nothing; their contracts are the theorems.

ghost use Rattle.retained.specs.Theorems.{LastIsRetained, StaysInBounds};

/// States that what is retained of a topic is its last publication with RETAIN 1, and nothing if
/// that had no payload (MQTT 3.3.1.3).
pub fn last_is_retained()
    ensures { LastIsRetained }
{}

/// States that the topics are in ascending order of their bytes, each once, and at most 16,384.
pub fn stays_in_bounds()
    ensures { StaysInBounds }
{}
