//! Texts, each with the scenario that it means, by numbers.
ghost use Rattle.std.specs.Prelude.{◌≡◌, Some};
ghost use Rattle.cx_cases.specs.Short.{numbered_by};
ghost use Rattle.cx_cases.specs.Meanings1.{text_0010, scene_0010, text_0014, scene_0014, text_0017, scene_0017, text_0020, scene_0020, text_0032, scene_0032, text_0053, scene_0053, text_0094, scene_0094, text_0095, scene_0095, text_0097, scene_0097, text_0110, scene_0110};

/// Texts, each with the scenario that it means, by numbers.
pub fn meanings_1_hold()
    ensures text_0010_means { numbered_by text_0010 ≡ Some scene_0010 }
    ensures text_0014_means { numbered_by text_0014 ≡ Some scene_0014 }
    ensures text_0017_means { numbered_by text_0017 ≡ Some scene_0017 }
    ensures text_0020_means { numbered_by text_0020 ≡ Some scene_0020 }
    ensures text_0032_means { numbered_by text_0032 ≡ Some scene_0032 }
    ensures text_0053_means { numbered_by text_0053 ≡ Some scene_0053 }
    ensures text_0094_means { numbered_by text_0094 ≡ Some scene_0094 }
    ensures text_0095_means { numbered_by text_0095 ≡ Some scene_0095 }
    ensures text_0097_means { numbered_by text_0097 ≡ Some scene_0097 }
    ensures text_0110_means { numbered_by text_0110 ≡ Some scene_0110 }
{}
