//! Machines of a plant on several words that are to go to work over its interlock, and what they give back.
ghost use Rattle.std.specs.Prelude.{◌≡◌, List, length};
ghost use Rattle.plan_interlock.specs.Plant.{WordView};
ghost use Rattle.plan_workers.specs.PlantJobs.{IsPlantJobOf, IsPlantReady};

use crate::plant_controller::PlantController;
use plan_controller::laws::rounds_begin_anywhere;
use plan_interlock::PlantPass;
use plan_types::Refusal;

/// A machine of a plant that is to go to work: its pass, its program on all words, its devices.
#[derive(Drop)]
pub struct PlantJob<D> {
    /// The machine's pass, which has its right on each word.
    pub pass: PlantPass,
    /// Its controller: its program, its place in it, and what has stopped it.
    pub controller: PlantController,
    /// Its devices.
    pub devices: D,
}

impl<D> PlantJob<D> {
    /// A machine at the beginning of its program. Its controller is of a plant with as many words as its pass has
    /// rights. It may go to work over each interlock that its pass was made with (`ready`).
    pub fn new(pass: PlantPass, controller: PlantController, devices: D) -> PlantJob<D>
        requires begins { controller.place ≡ 0 }
        requires each_word { controller.words ≡ length pass.rights }
        requires own { controller.machine ≡ pass.actor }
        ensures pass { result.pass ≡ pass }
        ensures controller { result.controller ≡ controller }
        ensures devices { result.devices ≡ devices }
        ensures ready { (words : List WordView) → IsPlantJobOf words pass
            → IsPlantReady words result }
    {
        // Each of its rights is this machine's.
        let _machine = pass.actor();
        rounds_begin_anywhere();
        PlantJob {
            pass,
            controller,
            devices,
        }
    }
}

/// What a machine of a plant gives back after its work.
#[derive(Drop)]
pub struct PlantWorked<D> {
    /// Its pass.
    pub pass: PlantPass,
    /// Its controller: it may go on where it is, by this pass.
    pub controller: PlantController,
    /// Its devices, with all motors off.
    pub devices: D,
    /// How many turns it took.
    pub turns: u32,
    /// The refusal that has stopped it, if one has.
    pub stopped_by: Option<Refusal>,
}
