ghost use Rattle.cap_reloc.specs.Laws.{
  TagsAreOfPairs,
  WordsAreOfPairs,
  CapabilitiesStand,
  BytesAreWords,
  ListsAreOfPairs,
  SlotsAreFilled,
  OthersStay,
  SizeStays,
  StoredIsSound,
  StoredIsNoted,
};
ghost use Rattle.cap_reloc.specs.Meant.{WantedIsMeant};
ghost use Rattle.cap_reloc.specs.Shown.{StoredIsMeant};
ghost use Rattle.cap_reloc.specs.Laws.{WantedIsNarrowed, WantedIsApart, WantedIsInside, WantedIsData, WantedIsNoted, RefusedIsUnfit};

/// States what memory holds once the pairs of an object are stored. It computes nothing.
pub fn storing_laws()
    ensures tags { TagsAreOfPairs }
    ensures words { WordsAreOfPairs }
    ensures capabilities { CapabilitiesStand }
    ensures bytes { BytesAreWords }
    ensures lists { ListsAreOfPairs }
    ensures slots { SlotsAreFilled }
    ensures others { OthersStay }
    ensures size { SizeStays }
    ensures sound { StoredIsSound }
    ensures noted { StoredIsNoted }
    ensures meant { StoredIsMeant }
{
    cap_mem::order_laws();
    cap_own::grant_laws();
}

/// States what holds of the pairs that are wanted of an object, and of a refusal. It computes nothing.
pub fn binding_laws()
    ensures narrowed { WantedIsNarrowed }
    ensures apart { WantedIsApart }
    ensures inside { WantedIsInside }
    ensures unfit { RefusedIsUnfit }
    ensures bounds { WantedIsData }
    ensures noted { WantedIsNoted }
    ensures meant { WantedIsMeant }
{}
