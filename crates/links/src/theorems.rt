// Theorems about parcels and links. The functions do nothing; their contracts are the theorems.

ghost use Rattle.links.specs.ParcelTheorems.{OtherParcelsAreShort, ParcelsAreRead};
ghost use Rattle.links.specs.ParcelTheorems.{ReadParcelsAreWritten};
ghost use Rattle.links.specs.Runs.{AcceptedFramesAreTagged, EndsHaveOnePlace};
ghost use Rattle.links.specs.Runs.{LinksHandOverWhatWasGiven, ReadingsJoin};

/// States that the bytes of a parcel are read as that parcel, and that a parcel that was read is
/// written to the bytes from which it was read.
pub fn parcels_have_one_spelling()
    ensures read { ParcelsAreRead }
    ensures written { ReadParcelsAreWritten }
{}

/// States that a parcel without a log has less than 2 MiB.
pub fn other_parcels_are_short()
    ensures { OtherParcelsAreShort }
{}

/// States that what is read in two steps is read in one, so chunks do not matter.
pub fn readings_join()
    ensures { ReadingsJoin }
{}

/// States that if the bytes that were read are a prefix of those that were written from the same
/// place on, what is handed over is a prefix of what was given.
pub fn links_hand_over_what_was_given()
    ensures { LinksHandOverWhatWasGiven }
{}

/// States that what is handed over came in frames that bear their tags.
pub fn accepted_frames_are_tagged()
    ensures { AcceptedFramesAreTagged }
{}

/// States that of two ends that met each opens from the place on from which the other seals.
pub fn ends_have_one_place()
    ensures { EndsHaveOnePlace }
{}
