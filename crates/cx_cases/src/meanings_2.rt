//! Texts, each with the scenario that it means, by numbers.
ghost use Rattle.std.specs.Prelude.{◌≡◌, Some};
ghost use Rattle.cx_cases.specs.Short.{numbered_by};
ghost use Rattle.cx_cases.specs.Meanings2.{text_0121, scene_0121, text_0128, scene_0128, text_0133, scene_0133, text_0137, scene_0137, text_0143, scene_0143, text_0144, scene_0144};

/// Texts, each with the scenario that it means, by numbers.
pub fn meanings_2_hold()
    ensures text_0121_means { numbered_by text_0121 ≡ Some scene_0121 }
    ensures text_0128_means { numbered_by text_0128 ≡ Some scene_0128 }
    ensures text_0133_means { numbered_by text_0133 ≡ Some scene_0133 }
    ensures text_0137_means { numbered_by text_0137 ≡ Some scene_0137 }
    ensures text_0143_means { numbered_by text_0143 ≡ Some scene_0143 }
    ensures text_0144_means { numbered_by text_0144 ≡ Some scene_0144 }
{}
