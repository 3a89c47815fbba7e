//! The sizes of the exported structs. If a number here is wrong, this module does not compile; `checks/library` compares the numbers with
//! `um.h`.

use crate::blocks::BlockReport;
use crate::bursts::{AccessReport, SyncReport};
use crate::datalinks::{CDataLink, CReport, CTimedEnd};
use crate::effects::{CEffects, CNotice};
use crate::erasing::Erasure;
use crate::facch_erasing::FacchErasure;
use crate::frames::CFrame;
use crate::margins::MarginReport;
use crate::places::CPlace;
use crate::repairs::RepairReport;
use crate::sides::CSide;
use crate::slots::SlotBlock;
use crate::states::CEndpoint;
use crate::times::CSch;
use crate::traffic::TrafficBlock;
use crate::traffic_places::CTrafficPlace;
use lapdm_end::MessageBuffer;
use um_slot::{FrameTime, Slot};
use um_traffic::{Traffic, TrafficSender};

const CHECK_BLOCK_REPORT_SIZE: [u8; 268] = [0; size_of::<BlockReport>()];

const CHECK_MARGIN_REPORT_SIZE: [u8; 460] = [0; size_of::<MarginReport>()];

const CHECK_REPAIR_REPORT_SIZE: [u8; 226] = [0; size_of::<RepairReport>()];

const CHECK_ACCESS_REPORT_SIZE: [u8; 40] = [0; size_of::<AccessReport>()];

const CHECK_SYNC_REPORT_SIZE: [u8; 80] = [0; size_of::<SyncReport>()];

const CHECK_FRAME_SIZE: [u8; 28] = [0; size_of::<CFrame>()];

const CHECK_MESSAGE_SIZE: [u8; 256] = [0; size_of::<MessageBuffer>()];

const CHECK_ENDPOINT_SIZE: [u8; 2584] = [0; size_of::<CEndpoint>()];

const CHECK_SIDE_SIZE: [u8; 5168] = [0; size_of::<CSide>()];

const CHECK_NOTICE_SIZE: [u8; 272] = [0; size_of::<CNotice>()];

const CHECK_TIMED_END_SIZE: [u8; 2616] = [0; size_of::<CTimedEnd>()];

const CHECK_DATALINK_SIZE: [u8; 5240] = [0; size_of::<CDataLink>()];

const CHECK_REPORT_SIZE: [u8; 824] = [0; size_of::<CReport>()];

const CHECK_EFFECTS_SIZE: [u8; 864] = [0; size_of::<CEffects>()];

const CHECK_ERASURE_SIZE: [u8; 5] = [0; size_of::<Erasure>()];

const CHECK_TIME_SIZE: [u8; 4] = [0; size_of::<FrameTime>()];

const CHECK_SCH_SIZE: [u8; 8] = [0; size_of::<CSch>()];

const CHECK_PLACE_SIZE: [u8; 8] = [0; size_of::<CPlace>()];

const CHECK_SLOT_SIZE: [u8; 608] = [0; size_of::<Slot>()];

const CHECK_SLOT_BLOCK_SIZE: [u8; 284] = [0; size_of::<SlotBlock>()];

const CHECK_TRAFFIC_PLACE_SIZE: [u8; 3] = [0; size_of::<CTrafficPlace>()];

const CHECK_TRAFFIC_SIZE: [u8; 1808] = [0; size_of::<Traffic>()];

const CHECK_TRAFFIC_BLOCK_SIZE: [u8; 892] = [0; size_of::<TrafficBlock>()];

const CHECK_FACCH_ERASURE_SIZE: [u8; 9] = [0; size_of::<FacchErasure>()];

const CHECK_TRAFFIC_SENDER_SIZE: [u8; 1788] = [0; size_of::<TrafficSender>()];
