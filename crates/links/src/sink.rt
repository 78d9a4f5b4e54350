// Where the parcels of a link go.

ghost use Rattle.std.specs.Prelude.{◌≡◌, ◌++◌, ◌∷◌, []};

use crate::parcel::Parcel;

/// Takes the parcels of a link, in their order.
pub trait ParcelSink {
    ghost use Rattle.std.specs.Prelude.{List};
    ghost use Rattle.links.specs.declared.parcel.Parcel.{Parcel};

    // Every parcel that it took, oldest first.
    ghost heard: { Self → List Parcel };

    /// Takes a parcel.
    fn take(&mut self, parcel: Parcel)
        ensures { heard self.new ≡ heard self.old ++ parcel ∷ [] };
}
