// The laws of a search, for numbers of any count of digits and meters of any type M that have one.
ghost use Rattle.search.specs.Laws.{ListedTruly, PlacesEnough, ListedWholly, SearchEnds, ToldIsFaulty, ValuesRise};

// What a search lists, over any line and over one without faults.
pub fn list_laws<M>() -> u8
    ensures truly { ListedTruly M }
    ensures places { PlacesEnough M }
    ensures wholly { ListedWholly M }
    ensures ends { SearchEnds M }
    ensures told { ToldIsFaulty M }
    ensures values { ValuesRise }
{
    0
}
