//! Places rise with the numbers of nodes. So the least node at which a rule does not hold is the one at
//! the least place.
ghost use Rattle.place_order.specs.Laws.{DocumentPlacesRise, SchemaPlacesRise};

/// Law: of two nodes of a schema that was read, the one with the lower number begins no later.
pub fn schema_places_rise()
    ensures { SchemaPlacesRise }
{}

/// Law: of two nodes of documents that were read, numbered from file to file, the one with the lower
/// number stands in an earlier file, or begins no later in the same one.
pub fn document_places_rise()
    ensures { DocumentPlacesRise }
{}
